//! What a pattern is made of, once it is read.

ghost use Rattle.std.specs.Prelude.{◌≡◌, ◌-◌, ◌^◌, min};
ghost use Rattle.std.specs.Bool.{beq};
ghost use Rattle.std.specs.Cmp.{booleans_Decides};
ghost use Rattle.std.specs.Cmp.Lexicographic.{pointwise, pointwise_decides};
ghost use Rattle.std.specs.Cmp.Rules.{comparing};
ghost use Rattle.std.specs.Hash as fed;
ghost use Rattle.std.specs.Hash.{same_Alike};
ghost use Rattle.std.proofs.Common.{rules};

use basics::is_symbol;
use std::hash::{Hash, Hasher};
use std::marker::Model;

/// One bit for every symbol.
const EVERY: u128 = (1 << 95) - 1;

/// A set of symbols, in 16 bytes. A contract sees, of each of the 95 symbols in order, whether the
/// class holds it.
#[derive(Clone, Copy)]
pub struct Class {
    // from the lowest on, one bit for each symbol, and no other bit
    bits: u128,
}

impl Model for Class {
    ghost use Rattle.std.specs.Prelude.{◌<◌, ◌^◌, List, Bool};
    ghost use Rattle.pol_pattern.specs.ClassBits.{low_bits, from_bits, from_bits-low_bits};

    ghost Value = { List Bool };

    ghost view = { λ class. low_bits 95 class.bits };

    ghost invariant = { λ class. class.bits < 2 ^ 95 };

    ghost inverse = { λ members. record { bits = from_bits members } };

    ghost inverse_ok = { λ class below i. record { bits = from_bits-low_bits 95 class.bits below i } };
}

// Not derived, so that a contract sees the classes compared symbol by symbol, and no bits.
impl PartialEq for Class {
    ghost eq = { pointwise beq };

    ghost laws = { Prim.search (comparing, rules) };

    fn eq(&self, other: &Class) -> bool {
        self.bits == other.bits
    }
}

impl Eq for Class {
    ghost laws = { Prim.search (comparing, rules) };
}

impl Hash for Class {
    ghost use Rattle.pol_pattern.specs.ClassBits.{from_bits};

    ghost hash_input = { λ class. fed.u128 (from_bits class) };

    ghost respects_eq = { (same_Alike (λ class. fed.u128 (from_bits class)) (pointwise_decides booleans_Decides)).fed };

    fn hash<H: Hasher>(&self, state: &mut H) {
        self.bits.hash(state);
    }
}

/// The bits of the symbols below the byte.
fn symbols_below(byte: u8) -> u128
    ensures { result ≡ 2 ^ min (byte - 0x20) 95 - 1 }
{
    (1 << byte.saturating_sub(b' ').min(95)) - 1
}

impl Class {
    ghost use Rattle.std.specs.Prelude.{◌||◌, ◌&&◌, ℕ, Bool, true, false, not, nat_le};
    ghost use Rattle.pol_pattern.specs.Flat.{holds_symbol, class_where};
    ghost use Rattle.pol_pattern.specs.Spelling.{only as only_symbol, any_symbol};

    /// No symbol.
    pub(crate) fn none() -> Class
        ensures { result ≡ class_where (λ byte. false) }
    {
        Class { bits: 0 }
    }

    /// Every symbol.
    pub(crate) fn any() -> Class
        ensures { result ≡ any_symbol }
    {
        Class { bits: EVERY }
    }

    /// The one symbol.
    pub(crate) fn only(symbol: u8) -> Class
        ensures { result ≡ only_symbol symbol }
    {
        Class::none().with_range(symbol, symbol)
    }

    /// The symbols of the class, and those from the first to the last.
    pub(crate) fn with_range(self, first: u8, last: u8) -> Class
        ensures { (test : ℕ → Bool) → self ≡ class_where test
            → result ≡ class_where (λ byte. test byte || (nat_le first byte && nat_le byte last)) }
    {
        let before = symbols_below(first);
        let through = symbols_below(last.saturating_add(1));
        Class {
            bits: self.bits | (through & !before),
        }
    }

    /// The symbols that the class does not hold.
    pub(crate) fn complement(self) -> Class
        ensures { (test : ℕ → Bool) → self ≡ class_where test
            → result ≡ class_where (λ byte. not (test byte)) }
    {
        Class {
            bits: self.bits ^ EVERY,
        }
    }

    /// Whether the class holds the symbol; a byte that is no symbol it does not hold.
    #[tactic(auto, unfolding(crate::specs::Flat::holds_symbol))]
    pub fn holds(&self, symbol: u8) -> bool
        ensures { result ≡ holds_symbol self.now symbol }
    {
        is_symbol(symbol) && (self.bits >> (symbol - b' ')) & 1 == 1
    }
}

/// The factors of one alternative, in order: its texts are joined of its factors' texts.
pub type Term = Vec<Factor>;

/// A part of a pattern.
#[derive(Drop, PartialEq, Eq)]
pub enum Factor {
    /// One symbol of the class.
    Class(Class),
    /// A text of one of the terms.
    Group(Vec<Term>),
    /// Any number of texts of the terms, one after another, possibly none.
    Star(Vec<Term>),
}
