//! How long a worker pauses where no connection can be accepted.

ghost use Rattle.std.specs.Prelude.{◌≡◌};
ghost use Rattle.tac_net.specs.Pause as pauses;

/// The first pause, in milliseconds.
const FIRST: u64 = 50;

/// The longest pause, in milliseconds.
const LONGEST: u64 = 1_000;

/// How long the next pause is, in a row of failures.
#[derive(Clone, Copy, Debug, PartialEq, Eq)]
pub struct Pause {
    milliseconds: u64,
}

impl Pause {
    /// The first pause in a row.
    pub fn first() -> Pause
        ensures { result ≡ pauses.first }
    {
        Pause {
            milliseconds: FIRST,
        }
    }

    /// The pause after this one: twice as long, and a second at most.
    pub fn next(self) -> Pause
        ensures { result ≡ pauses.next self }
    {
        Pause {
            milliseconds: self.milliseconds.saturating_mul(2).min(LONGEST),
        }
    }

    /// How long it is, in milliseconds.
    pub fn milliseconds(self) -> u64
        ensures { result ≡ self.milliseconds }
    {
        self.milliseconds
    }
}
