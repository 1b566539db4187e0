//! Which of the services that two policies name may change for a user.

ghost use Rattle.std.specs.Prelude.{◌≡◌, length, is_some, IfOk};
ghost use Rattle.std.specs.List.{list_any};
ghost use Rattle.pol_names.specs.SameService.{same_service};
ghost use Rattle.pol_text.specs.Policy.{chain};
ghost use Rattle.pol_given.specs.Given.{is_about, first_speaking, speaking};
ghost use Rattle.pol_meaning.specs.ServiceChanges.{service_change};
ghost use Rattle.pol_report.specs.Asking.{AreMarked, AreAsked};

use crate::comparison::Comparison;
use crate::named::Named;
use indexmap::IndexSet;
use pol_given::shell;
use pol_names::{Name, ServiceId, ServiceLine, SubjectId};
use pol_text::{Policy, Subject};
use std::alloc::{AllocError, Global};

// Marks the place of a service, if it has one.
fn mark(marks: &mut [bool], services: &IndexSet<Named>, service: &ServiceId)
    requires { length marks.old ≡ length services.now.keys }
    ensures length { length marks.new ≡ length services.now.keys }
    ensures marked { AreMarked services.now.keys (λ other. same_service other service.now)
        marks.old marks.new }
{
    if let Some(place) = services.get_index_of(&Named { service: *service }) {
        marks[place] = true;
    }
}

// Marks the services that the lines name.
fn mark_named(marks: &mut [bool], services: &IndexSet<Named>, lines: &[ServiceLine])
    requires { length marks.old ≡ length services.now.keys }
    ensures length { length marks.new ≡ length services.now.keys }
    ensures marked { AreMarked services.now.keys (λ other. list_any (is_about other) lines.now)
        marks.old marks.new }
{
    for line in lines {
        mark(marks, services, &line.service);
    }
}

// Marks the services that are named along the subject's chain.
fn mark_along(marks: &mut [bool], services: &IndexSet<Named>, policy: &Policy, subject: &Subject)
    requires { length marks.old ≡ length services.now.keys }
    ensures length { length marks.new ≡ length services.now.keys }
    ensures marked { AreMarked services.now.keys
        (λ other. is_some (first_speaking other (chain policy.now subject.now)))
        marks.old marks.new }
{
    let mut present = subject;
    'chain: for _ in 0..Policy::MAX_CHAIN {
        mark_named(marks, services, present.services.as_slice());
        match policy.parent_of(present) {
            Some(parent) => present = parent,
            None => return,
        }
    }
}

// Marks the services that are named along the user's chain.
fn mark_for(marks: &mut [bool], services: &IndexSet<Named>, policy: &Policy, user: &Name)
    requires { length marks.old ≡ length services.now.keys }
    ensures length { length marks.new ≡ length services.now.keys }
    ensures marked { AreMarked services.now.keys
        (λ other. is_some (speaking policy.now user.now other)) marks.old marks.new }
{
    if let Some(subject) = policy.find(&SubjectId::user(*user)) {
        mark_along(marks, services, policy, subject);
    }
}

// Marks the services that may change for the user: the shell, and those that are named along the
// user's chain in either policy. Nobody decides on the others in either.
fn mark_asked(
    marks: &mut [bool],
    services: &IndexSet<Named>,
    policies: &Comparison<'_>,
    user: &Name,
)
    requires { length marks.old ≡ length services.now.keys }
    ensures length { length marks.new ≡ length services.now.keys }
    ensures asked { AreAsked services.now.keys
        (service_change policies.now.before policies.now.after user.now) marks.new }
{
    mark(marks, services, &shell());
    mark_for(marks, services, policies.old_policy(), user);
    mark_for(marks, services, policies.new_policy(), user);
}

/// Which of the services may change for the user, by their places. Takes a byte for each service,
/// and a look-up for each line about services along the user's chain in both policies.
pub(crate) fn services_asked(
    alloc: Global,
    services: &IndexSet<Named>,
    policies: &Comparison<'_>,
    user: &Name,
) -> Result<Vec<bool>, AllocError>
    ensures length { IfOk result (λ marks. length marks.items ≡ length services.now.keys) }
    ensures asked { IfOk result (λ marks. AreAsked services.now.keys
        (service_change policies.now.before policies.now.after user.now) marks.items) }
{
    let mut marks = vec![in alloc; false; services.len()]?;
    mark_asked(&mut marks, services, policies, user);
    Ok(marks)
}
