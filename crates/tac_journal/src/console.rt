//! The log of a console.

ghost use Rattle.std.specs.Prelude.{◌≡◌, IfOk};
ghost use Rattle.tac_journal.specs.Console.{line_typed};
ghost use Rattle.tac_journal.specs.Logged.{IsLogged};

use crate::moment::now;
use crate::typists::Typists;
use crate::writer::{Append, log_lines};
use basics::Bytes;
use std::alloc::{AllocError, Global};
use std::time::Clock;
use tac_audit::{Refused, Typing, Typist, Witness, typed, typed_line};

// The line of JSON of a line that was answered so, both without secrets.
fn line_of_answer(
    alloc: Global,
    time: Bytes,
    typist: Typist,
    typing: &Typing,
) -> Result<Vec<u8>, AllocError>
    ensures { IfOk result (λ text. text.items ≡ line_typed time typist typing.now) }
{
    let Typing { line, answer } = typing;
    let typed = typed(alloc, time, typist, line.as_slice(), answer.as_slice())?;
    typed_line(alloc, &typed)
}

// Appends it to a log.
fn log_answer<F: Append>(
    alloc: Global,
    log: &mut F,
    time: Bytes,
    typist: Typist,
    typing: &Typing,
) -> Result<(), Refused>
    ensures { IsLogged F.takes F.refuses result (line_typed time typist typing.now)
        log.old log.new }
{
    log_lines(log, line_of_answer(alloc, time, typist, typing))
}

/// A witness of a console that writes each line that was typed to a log, with its answer, both
/// without their secrets, and who typed it, by one append.
///
/// An operator has to be answered while a disk is full: so the answer may be printed also where
/// its line is refused.
#[derive(Drop)]
pub struct ConsoleLog<'a, C, T, F> {
    alloc: Global,
    clock: &'a C,
    typists: &'a T,
    log: F,
}

impl<'a, C: Clock, T: Typists, F: Append + Drop> ConsoleLog<'a, C, T, F> {
    /// That of a console at which these type, from its beginning. Takes no memory.
    pub fn new(alloc: Global, clock: &'a C, typists: &'a T, log: F) -> ConsoleLog<'a, C, T, F> {
        ConsoleLog {
            alloc,
            clock,
            typists,
            log,
        }
    }
}

impl<C: Clock, T: Typists, F: Append + Drop> Witness<Typing> for ConsoleLog<'_, C, T, F> {
    ghost use Rattle.tac_journal.specs.Console as console;

    ghost takes = { λ was typing now.
        console.IsTyped F.takes (T.names was.typists.now) typing was.log now.log };

    ghost refuses = { λ was typing now.
        console.IsUntyped F.refuses (T.names was.typists.now) typing was.log now.log };

    fn tell(&mut self, typing: &Typing) -> Result<(), Refused> {
        let time = now(self.alloc, self.clock)?;
        let typist = self.typists.typist(self.alloc)?;
        log_answer(self.alloc, &mut self.log, time, typist, typing)
    }
}
