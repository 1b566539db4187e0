//! Equality at run time that contracts know.

use crate::sequence::Sequence;

/// Types whose `==` holds exactly of values that contracts see as equal.
///
/// Derive `PartialEq` and `Eq`, and let the prover find the law, as for `u8` below: for structs and
/// enums over such types it mostly does.
pub trait StructuralEq: Eq {
    ghost use Rattle.std.specs.Prelude.{◌≡◌, ◌↔◌, IsTrue, true};

    /// Values of which `==` holds are equal.
    ghost identical: { (x y : Self) → Self.eq x y ≡ true → x ≡ y };

    /// Whether the values are equal.
    final fn same(&self, other: &Self) -> bool
        ensures { IsTrue result ↔ (self.now ≡ other.now) }
    {
        self == other
    }
}

impl StructuralEq for u8 {
    ghost use Rattle.std.proofs.Common.{rules};

    ghost identical = { Prim.search rules };
}

impl<T: StructuralEq> StructuralEq for Sequence<T> {
    ghost use Rattle.basics.specs.Equality.{pointwise-identical};

    ghost identical = { pointwise-identical T.identical };
}
