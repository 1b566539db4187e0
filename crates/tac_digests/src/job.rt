//! A password that is to be worked out, and for whom.

ghost use Rattle.std.specs.Prelude.{◌≡◌};

use tac_conn::Typed;
use tac_worker::HashWork;

/// Which connection of which worker a password is worked out for.
#[derive(Clone, Copy, Debug, PartialEq, Eq)]
pub struct HashTicket {
    /// The number of the worker.
    pub worker: usize,
    /// The key of the connection there, and its number, since keys are used again.
    pub key: usize,
    pub number: u64,
}

/// A password that is to be worked out.
#[derive(Drop)]
pub struct Job {
    pub ticket: HashTicket,
    pub work: HashWork,
}

/// A password that was worked out.
#[derive(Drop)]
pub struct Done {
    pub ticket: HashTicket,
    pub password: Typed,
}

impl Job {
    /// Works it out. Linear in the rounds.
    pub fn done(self) -> Done
        ensures { result ≡ record { ticket = self.ticket; password = self.work.password } }
    {
        let Job { ticket, work } = self;
        Done {
            ticket,
            password: work.done(),
        }
    }
}
