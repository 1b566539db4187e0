//! What users are given for services by one policy and not by another.

ghost use Rattle.std.specs.Prelude.{◌≡◌, ◌++◌, [], ◌∷◌, IsTrue, IfOk, IfSome, OnOk, filter_map};
ghost use Rattle.std.specs.Prelude.{flat_map, length};
ghost use Rattle.pol_meaning.specs.LineChanges.{users_of, users_alone};
ghost use Rattle.pol_meaning.specs.ServiceChanges.{reply_of, services_named as named_by};
ghost use Rattle.pol_meaning.specs.ServiceChanges.{service_change, service_changes_of};
ghost use Rattle.pol_meaning.specs.ServiceChanges.{service_changes as changes_by};
ghost use Rattle.pol_report.specs.Asking.{AreAsked};
ghost use Rattle.pol_report.specs.Comparing.{later_policy};

use crate::asking::services_asked;
use crate::comparison::{Comparison, Later};
use crate::named::{Named, services_named};
use crate::users::{is_alone, is_user};
use basics::{Bytes, Sequence};
use indexmap::IndexSet;
use pol_given::{service_arguments, shell, shell_arguments};
use pol_meaning::ServiceChange;
use pol_names::{Name, ServiceId};
use std::alloc::{AllocError, Global};

// What a user is given for a service by one of the policies.
fn reply(
    alloc: Global,
    policy: Later<'_>,
    user: &Name,
    service: &ServiceId,
) -> Result<Option<Sequence<Bytes>>, AllocError>
    ensures { IfOk result (λ reply.
        reply ≡ reply_of (later_policy policy.entry) user.now service.now) }
{
    if *service != shell() {
        return service_arguments(alloc, policy.policy(), user, service);
    }
    if !policy.permits_shell(user) {
        return Ok(Some(Sequence::new(alloc)));
    }
    let arguments = shell_arguments(alloc, policy.policy(), user)?;
    Ok(Some(arguments))
}

// Lists what changes for a user and a service, if anything does.
fn list_service(
    alloc: Global,
    changes: &mut Sequence<ServiceChange>,
    policies: &Comparison<'_>,
    user: &Name,
    service: &ServiceId,
) -> Result<(), AllocError>
    ensures { OnOk result (changes.new ≡ changes.old
        ++ filter_map (service_change policies.now.before policies.now.after user.now)
        (service.now ∷ [])) }
{
    let was = reply(alloc, policies.before(), user, service)?;
    let is = reply(alloc, policies.after(), user, service)?;
    if was == is {
        return Ok(());
    }
    changes.push(ServiceChange {
        user: *user,
        service: *service,
        was,
        is,
    })?;
    Ok(())
}

// Lists what changes for a user, of the services that are marked.
fn list_asked(
    alloc: Global,
    changes: &mut Sequence<ServiceChange>,
    policies: &Comparison<'_>,
    user: &Name,
    services: &IndexSet<Named>,
    asked: &[bool],
) -> Result<(), AllocError>
    requires length { length asked.now ≡ length services.now.keys }
    requires asked { AreAsked services.now.keys
        (service_change policies.now.before policies.now.after user.now) asked.now }
    ensures { OnOk result (changes.new ≡ changes.old
        ++ filter_map (service_change policies.now.before policies.now.after user.now)
        services.now.keys) }
{
    let services = services.as_slice();
    'places: for place in 0..services.len() {
        if !asked[place] {
            continue;
        }
        let named = &services[place];
        list_service(alloc, changes, policies, user, &named.service)?;
    }
    Ok(())
}

// Whether it is plain that nothing changes for the user: the same is said along the chain of levels
// and of services, and an empty line is permitted by both policies or by neither.
fn stays(policies: &Comparison<'_>, user: &Name) -> bool
    ensures { IsTrue result
        → service_changes_of policies.now.before policies.now.after user.now ≡ [] }
{
    policies.gives_the_same(user)
        && policies.before().permits_shell(user) == policies.after().permits_shell(user)
}

// Lists what changes for a user, of all services.
fn list_all(
    alloc: Global,
    changes: &mut Sequence<ServiceChange>,
    services: &IndexSet<Named>,
    policies: &Comparison<'_>,
    user: &Name,
) -> Result<(), AllocError>
    requires { services.now.keys ≡ named_by policies.now.before policies.now.after }
    ensures { OnOk result (changes.new ≡ changes.old
        ++ service_changes_of policies.now.before policies.now.after user.now) }
{
    let asked = services_asked(alloc, services, policies, user)?;
    list_asked(alloc, changes, policies, user, services, &asked)
}

// Lists what changes for a user. Which services the policies name is found when it is first needed.
fn list_user(
    alloc: Global,
    changes: &mut Sequence<ServiceChange>,
    named: &mut Option<IndexSet<Named>>,
    policies: &Comparison<'_>,
    user: &Name,
) -> Result<(), AllocError>
    requires named { IfSome named.old (λ services.
        services.keys ≡ named_by policies.now.before policies.now.after) }
    ensures named { OnOk result (IfSome named.new (λ services.
        services.keys ≡ named_by policies.now.before policies.now.after)) }
    ensures listed { OnOk result (changes.new ≡ changes.old
        ++ service_changes_of policies.now.before policies.now.after user.now) }
{
    if stays(policies, user) {
        return Ok(());
    }
    if let Some(services) = named {
        return list_all(alloc, changes, services, policies, user);
    }
    let services = services_named(alloc, policies.old_policy(), policies.new_policy())?;
    list_all(alloc, changes, &services, policies, user)?;
    *named = Some(services);
    Ok(())
}

// Lists what changes for the users of the new policy.
fn list_present(
    alloc: Global,
    changes: &mut Sequence<ServiceChange>,
    named: &mut Option<IndexSet<Named>>,
    policies: &Comparison<'_>,
) -> Result<(), AllocError>
    requires named { IfSome named.old (λ services.
        services.keys ≡ named_by policies.now.before policies.now.after) }
    ensures named { OnOk result (IfSome named.new (λ services.
        services.keys ≡ named_by policies.now.before policies.now.after)) }
    ensures listed { OnOk result (changes.new ≡ changes.old
        ++ flat_map (service_changes_of policies.now.before policies.now.after)
        (users_of policies.now.after)) }
{
    for subject in policies.new_policy().subjects() {
        if is_user(subject) {
            list_user(alloc, changes, named, policies, &subject.name)?;
        }
    }
    Ok(())
}

// Lists what changes for the users of the old policy alone.
fn list_gone(
    alloc: Global,
    changes: &mut Sequence<ServiceChange>,
    named: &mut Option<IndexSet<Named>>,
    policies: &Comparison<'_>,
) -> Result<(), AllocError>
    requires named { IfSome named.old (λ services.
        services.keys ≡ named_by policies.now.before policies.now.after) }
    ensures { OnOk result (changes.new ≡ changes.old
        ++ flat_map (service_changes_of policies.now.before policies.now.after)
        (users_alone policies.now.after policies.now.before)) }
{
    for subject in policies.old_policy().subjects() {
        if is_alone(policies.new_policy(), subject) {
            list_user(alloc, changes, named, policies, &subject.name)?;
        }
    }
    Ok(())
}

/// What changes for services: for the users of the new policy, and then for those of the old one
/// alone. Where all along a user's chain the same is said of levels and of services, it takes at
/// most a comparison of these lines. Else it looks up in both policies what the user is given for
/// a shell and for each service that is named along the user's chain in one of them, and reads a
/// byte for each service that is named anywhere.
pub(crate) fn list_services(
    alloc: Global,
    policies: &Comparison<'_>,
) -> Result<Sequence<ServiceChange>, AllocError>
    ensures { IfOk result (λ changes.
        changes ≡ changes_by policies.now.before policies.now.after) }
{
    let mut changes = Sequence::new(alloc);
    let mut named = None;
    list_present(alloc, &mut changes, &mut named, policies)?;
    list_gone(alloc, &mut changes, &mut named, policies)?;
    Ok(changes)
}
