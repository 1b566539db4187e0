//! Whether two policies say the same of levels and services.

ghost use Rattle.std.specs.Prelude.{◌≡◌, IsTrue};
ghost use Rattle.pol_report.specs.Saying.{stand, stands};

use basics::StructuralEq;
use pol_text::Subject;

// Whether two subjects are the same but for their secrets and rules.
fn is_alike(one: &Subject, two: &Subject) -> bool
    ensures { IsTrue result → stand one.now ≡ stand two.now }
{
    one.id() == two.id()
        && one.parent == two.parent
        && one.priv_lvl == two.priv_lvl
        && one.services.same(&two.services)
}

/// Whether all subjects, one after another, are the same but for their secrets and rules.
pub(crate) fn all_alike(old: &[Subject], new: &[Subject]) -> bool
    ensures { IsTrue result → stands old.now ≡ stands new.now }
{
    if old.len() != new.len() {
        return false;
    }
    'subjects: for i in 0..old.len() {
        if !is_alike(&old[i], &new[i]) {
            return false;
        }
    }
    true
}
