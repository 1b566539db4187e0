//! Who decides on a service, and what a line of that subject gives.

ghost use Rattle.std.specs.Prelude.{◌≡◌, ◌≤◌, [], ◌∷◌, length, All, Contains, IsTrue, IfSome};
ghost use Rattle.std.specs.Option.{option_copied};
ghost use Rattle.pol_names.specs.Service.{refusing};
ghost use Rattle.pol_text.specs.Policy.{chain, is_right_subject, max_services};
ghost use Rattle.pol_given.specs.Given as given;
ghost use Rattle.pol_given.specs.Given.{said_of, attributes_of, first_speaking};
ghost use Rattle.pol_given.specs.Given.{speaks_of as speaks_test};

use basics::Bytes;
use pol_names::{Name, Says, ServiceId, ServiceLine, SubjectId};
use pol_text::{Policy, Subject};

// Whether the subject has a line of the service.
fn speaks_of(subject: &Subject, service: &ServiceId) -> bool
    ensures { result ≡ speaks_test service.now subject.now }
{
    subject
        .services
        .as_slice()
        .iter()
        .any(|line| *service == line.service)
}

// The nearest of the subject's chain that has a line of the service.
fn nearest<'a>(policy: &'a Policy, subject: &'a Subject, service: &ServiceId) -> Option<&'a Subject>
    requires { Contains policy.now subject.now }
    ensures exact { option_copied result
        ≡ first_speaking service.now (chain policy.now subject.now) }
    ensures there { IfSome result (λ found. Contains policy.now found.now) }
    ensures speaks { IfSome result (λ found. IsTrue (speaks_test service.now found.now)) }
{
    let mut present = subject;
    'chain: for _ in 0..Policy::MAX_CHAIN {
        if speaks_of(present, service) {
            return Some(present);
        }
        match policy.parent_of(present) {
            Some(parent) => present = parent,
            None => return None,
        }
    }
    None
}

/// Who decides on the service for this user: the nearest subject of the user's chain that has a
/// line of it, alone and whole. `None` where nobody has one, or there is no such user. Looks at
/// each line about services along the chain, up to 8 times 64. Takes no memory.
pub fn speaking<'a>(policy: &'a Policy, user: &Name, service: &ServiceId) -> Option<&'a Subject>
    ensures exact { option_copied result ≡ given.speaking policy.now user.now service.now }
    ensures there { IfSome result (λ subject. Contains policy.now subject.now) }
    ensures right { IfSome result (λ subject. IsTrue (is_right_subject subject.now)) }
    ensures speaks { IfSome result (λ subject. IsTrue (speaks_test service.now subject.now)) }

    // It gives at most 64 attributes,
    ensures few { IfSome result
        (λ subject. length (attributes_of service.now subject.now) ≤ max_services) }

    // and each has at most 255 bytes.
    ensures short { IfSome result
        (λ subject. All (λ text. length text ≤ 255) (attributes_of service.now subject.now)) }

    // Who refuses a service says nothing else of it.
    ensures alone { IfSome result
        (λ subject. IsTrue (given.refuses service.now subject.now) →
        said_of service.now subject.now ≡ refusing service.now ∷ []) }
{
    match policy.find(&SubjectId::user(*user)) {
        Some(subject) => nearest(policy, subject, service),
        None => None,
    }
}

// Whether the line refuses the service.
fn is_refusal_of(line: &ServiceLine, service: &ServiceId) -> bool
    ensures { result ≡ given.is_refusal_of service.now line.now }
{
    match &line.says {
        Says::Refuses => *service == line.service,
        Says::Allows(_) => false,
    }
}

/// Whether the subject refuses the service: whether one of its lines says so. Takes no memory.
pub fn refuses(subject: &Subject, service: &ServiceId) -> bool
    ensures { result ≡ given.refuses service.now subject.now }
{
    subject
        .services
        .as_slice()
        .iter()
        .any(|line| is_refusal_of(line, service))
}

/// The attribute that the line gives to the service, as it is written. `None` where the line is
/// about another service, refuses it, or allows it and gives nothing. Takes no memory.
pub fn attribute_in<'a>(line: &'a ServiceLine, service: &ServiceId) -> Option<&'a Bytes>
    ensures { option_copied result ≡ given.attribute_in service.now line.now }
{
    if *service != line.service {
        return None;
    }
    match &line.says {
        Says::Allows(attribute) => attribute.as_ref(),
        Says::Refuses => None,
    }
}
