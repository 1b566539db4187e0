//! Why an expression isn't said.

ghost use Rattle.std.specs.Prelude.{◌≡◌};
ghost use Rattle.posix_expression.specs.declared.unsaid.Unsaid.TheVariants.{Memory};

use std::alloc::{AllocError, AllocFailed};

/// Why no pattern says what a regular expression does.
#[derive(Clone, Copy)]
pub enum Unsaid {
    TooLong,
    NotSymbol,
    Reference,
    Escape,
    NamedClass,
    BadClass,
    BadCount,
    LargeCount,
    InnerAnchor,
    NothingToRepeat,
    Unclosed,
    Unopened,
    TooDeep,
    TooLarge,
    /// Memory ran out.
    Memory,
}

impl Unsaid {
    /// What is told of it.
    pub fn text(self) -> &'static str {
        match self {
            Unsaid::TooLong => "it is over 400 bytes long",
            Unsaid::NotSymbol => "it has a byte that isn't printable ASCII",
            Unsaid::Reference => "no pattern refers back to a group",
            Unsaid::Escape => "no pattern has this letter after a '\\'",
            Unsaid::NamedClass => "no pattern has classes by name, such as '[:alpha:]'",
            Unsaid::BadClass => "it has a '[' that begins no class",
            Unsaid::BadCount => "it has a '{' that begins no count",
            Unsaid::LargeCount => "it counts beyond 32",
            Unsaid::InnerAnchor => "its '^' or '$' stands within it",
            Unsaid::NothingToRepeat => "it repeats nothing",
            Unsaid::Unclosed => "it has a '(' that isn't closed",
            Unsaid::Unopened => "it has a ')' that closes nothing",
            Unsaid::TooDeep => "its parentheses are over 30 deep",
            Unsaid::TooLarge => "it is too large for a pattern",
            Unsaid::Memory => "memory ran out",
        }
    }
}

impl From<AllocError> for Unsaid {
    ghost from_gives = { λ _ why. why ≡ Memory };

    fn from(_e: AllocError) -> Unsaid {
        Unsaid::Memory
    }
}

impl<T: Drop> From<AllocFailed<T>> for Unsaid {
    ghost from_gives = { λ _ why. why ≡ Memory };

    fn from(_e: AllocFailed<T>) -> Unsaid {
        Unsaid::Memory
    }
}
