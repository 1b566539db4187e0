//! A record with its number.

use basics::StructuralEq;
use tac_tally::Record;

/// A record that is kept, and its number: the first that came has 1, and each keeps the number that
/// it has.
#[derive(PartialEq, Eq)]
pub struct Numbered {
    pub number: u64,
    pub item: Record,
}

// By hand, so that a proof of an owner has one call at each exit, not a drop of each field.
impl Drop for Numbered {
    fn drop(self) {
        let Numbered { number: _, item: _ } = self;
    }
}

impl StructuralEq for Numbered {
    ghost use Rattle.std.proofs.Common.{rules};

    ghost identical = { Prim.search rules };
}
