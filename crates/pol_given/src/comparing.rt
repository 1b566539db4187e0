//! Whether two policies give a user the same.

ghost use Rattle.std.specs.Prelude.{◌≡◌, IsTrue};
ghost use Rattle.pol_names.specs.declared.service.ServiceId.{ServiceId as ServiceValue};
ghost use Rattle.pol_text.specs.Policy.{chain};
ghost use Rattle.pol_given.specs.Given as given;
ghost use Rattle.pol_given.specs.Saying.{said as said_by, said_along};

use basics::StructuralEq;
use pol_names::{Name, SubjectId};
use pol_text::{Policy, Subject};

// Whether two subjects have the same level and the same lines about services.
fn say_alike(one: &Subject, two: &Subject) -> bool
    ensures { IsTrue result → said_by one.now ≡ said_by two.now }
{
    one.priv_lvl == two.priv_lvl && one.services.same(&two.services)
}

// Whether the subjects along two chains, one in each policy, say the same of levels and services.
fn alike_along(old: &Policy, new: &Policy, one: &Subject, two: &Subject) -> bool
    ensures { IsTrue result
        → said_along (chain old.now one.now) ≡ said_along (chain new.now two.now) }
{
    let (mut was, mut is) = (one, two);
    'chain: for _ in 0..Policy::MAX_CHAIN {
        if !say_alike(was, is) {
            return false;
        }
        match (old.parent_of(was), new.parent_of(is)) {
            (Some(one), Some(two)) => (was, is) = (one, two),
            (None, None) => return true,
            _ => return false,
        }
    }
    false
}

/// Whether all along the user's chain the same is said of levels and of services in both policies,
/// so that both give the user the same. It says no wherever something else is said, also where that
/// changes nothing. Compares the lines about services along the chain; takes no memory.
pub fn says_the_same(old: &Policy, new: &Policy, user: &Name) -> bool
    ensures services { IsTrue result → (service : ServiceValue)
        → given.service_arguments old.now user.now service
        ≡ given.service_arguments new.now user.now service }
    ensures shell { IsTrue result
        → given.shell_arguments old.now user.now ≡ given.shell_arguments new.now user.now }
{
    let id = SubjectId::user(*user);
    match (old.find(&id), new.find(&id)) {
        (Some(one), Some(two)) => alike_along(old, new, one, two),
        (None, None) => true,
        _ => false,
    }
}
