//! Who sits at the console: the lines that come, one after another.

ghost use Rattle.std.specs.Prelude.{◌≡◌, ◌<◌, [], Err, OnOk, vec_len};
ghost use Rattle.basics.specs.Lines.{lines_of};
ghost use Rattle.tac_hall_console.specs.Commands.{commands, is_quit as quit_test};
ghost use Rattle.tac_hall_console.specs.Operated.{Hears, quit_of};
ghost use Rattle.tac_hall_console.specs.Operating as operating;
ghost use Rattle.tac_hall_console.specs.Operating.{scene};

use crate::answering::{Console, answer_line, write_text};
use crate::fault::OperatorFault;
use crate::reloading::Source;
use basics::{Bytes, split_once};
use std::alloc::Global;
use std::io::{Read, Write};
use std::mem;
use std::sync::Wait;
use tac_audit::{Typing, Witness};
use tac_desk::Desk;
use tac_hall::{Hall, Run};
use tac_io::read_piece;

// How many bytes are read at once.
const CHUNK: usize = 4096;

/// How it went on at a piece of the input.
#[derive(Clone, Copy, PartialEq, Eq)]
pub(crate) enum Went {
    /// Its lines were answered.
    On,
    /// One of them is `quit`; those before it were answered.
    Quits,
}

/// A console, and the beginning of a line whose end hasn't come yet.
#[derive(Drop)]
pub(crate) struct Operator<J: Run> {
    pub(crate) alloc: Global,
    pub(crate) console: Console<J>,
    pub(crate) begun: Vec<u8>,
}

fn is_quit(line: &[u8]) -> bool
    ensures { result ≡ quit_test line.now }
{
    line == b"quit".as_slice()
}

impl<J: Run> Operator<J> {
    // Tells the witness that the line that was begun has this answer, which comes back. Then the
    // next line begins, in the room of this one.
    fn tell<V: Witness<Typing>>(&mut self, witness: &mut V, answer: Vec<u8>) -> Bytes
        ensures heard { Hears V.takes V.refuses witness.old
            (record { line = self.old.begun.items; answer = answer.items }) witness.new }
        ensures answer { result ≡ answer.items }
        ensures begun { self.new.begun.items ≡ [] }
        ensures console { self.new.console ≡ self.old.console }
    {
        let line = mem::replace(&mut self.begun, Vec::new(self.alloc));
        let typing = Typing {
            line: Bytes::from(line),
            answer: Bytes::from(answer),
        };
        // An operator has to be answered while the disk is full, so it goes on where the witness
        // refuses the line.
        let _ = witness.tell(&typing);
        let Typing { line, answer } = typing;
        self.begun = line.into_vec();
        self.begun.clear();
        answer
    }

    // Answers the line that was begun as a whole one, once the witness was told. Where memory runs
    // out it is told without an answer, since what the line asks for may have been done.
    fn answer<H: Wait, D: Desk, S: Source, V: Witness<Typing>, W: Write>(
        &mut self,
        rt: &H,
        desk: &Hall<J, D>,
        source: &S,
        witness: &mut V,
        writer: &mut W,
    ) -> Result<(), OperatorFault>
        ensures answers { operating.Answers (Hears V.takes V.refuses) J.opening result
            self.old.begun.items
            (scene self.old.console witness.old (W.contents writer.old))
            (scene self.new.console witness.new (W.contents writer.new)) }
        ensures begun { self.new.begun.items ≡ [] }
    {
        let line = self.begun.as_slice();
        match answer_line(rt, self.alloc, desk, source, &mut self.console, line) {
            Ok(text) => {
                let answer = self.tell(witness, text);
                write_text(writer, answer.as_slice())
            }
            Err(error) => {
                self.tell(witness, Vec::new(self.alloc));
                Err(OperatorFault::from(error))
            }
        }
    }

    // Answers the lines that end in a piece, each before the next is looked at.
    fn take<H: Wait, D: Desk, S: Source, V: Witness<Typing>, W: Write>(
        &mut self,
        rt: &H,
        desk: &Hall<J, D>,
        source: &S,
        witness: &mut V,
        writer: &mut W,
        piece: &[u8],
    ) -> Result<Went, OperatorFault>
        requires { operating.IsOpen self.old.begun.items }
        ensures { operating.Took (Hears V.takes V.refuses) J.opening result
            self.old.begun.items piece.now self.new.begun.items
            (scene self.old.console witness.old (W.contents writer.old))
            (scene self.new.console witness.new (W.contents writer.new)) }
    {
        let mut rest = piece;
        'lines: while let Some((front, after)) = split_once(rest, b'\n') {
            self.begun.extend_from_slice(front)?;
            if is_quit(self.begun.as_slice()) {
                self.tell(witness, Vec::new(self.alloc));
                return Ok(Went::Quits);
            }
            self.answer(rt, desk, source, witness, writer)?;
            rest = after;
        }
        self.begun.extend_from_slice(rest)?;
        Ok(Went::On)
    }

    // The input has ended: the line that was begun, if it isn't empty, is the last.
    fn take_last<H: Wait, D: Desk, S: Source, V: Witness<Typing>, W: Write>(
        &mut self,
        rt: &H,
        desk: &Hall<J, D>,
        source: &S,
        witness: &mut V,
        writer: &mut W,
    ) -> Result<(), OperatorFault>
        requires { operating.IsOpen self.old.begun.items }
        ensures read { operating.IsRead result }
        ensures wants { result ≡ Err OperatorFault.Memory → 0 < vec_len self.old.begun }
        ensures ends { operating.EndsAt (Hears V.takes V.refuses) J.opening result
            (commands (lines_of self.old.begun.items)) (quit_of (lines_of self.old.begun.items))
            (scene self.old.console witness.old (W.contents writer.old))
            (scene self.new.console witness.new (W.contents writer.new)) }
    {
        if self.begun.is_empty() {
            return Ok(());
        }
        if is_quit(self.begun.as_slice()) {
            self.tell(witness, Vec::new(self.alloc));
            return Ok(());
        }
        self.answer(rt, desk, source, witness, writer)
    }

    /// Answers the lines that come, up to `quit` or the end of the input, and tells the witness of
    /// each. An interrupted read is tried again.
    pub(crate) fn listen<H: Wait, D: Desk, S: Source, V: Witness<Typing>, R: Read, W: Write>(
        &mut self,
        rt: &H,
        desk: &Hall<J, D>,
        source: &S,
        witness: &mut V,
        reader: &mut R,
        writer: &mut W,
    ) -> Result<(), OperatorFault>
        requires { self.old.begun.items ≡ [] }
        ensures { operating.HasListened (Hears V.takes V.refuses) J.opening result
            (scene self.old.console witness.old (W.contents writer.old))
            (scene self.new.console witness.new (W.contents writer.new))
            (R.remaining reader.old) (R.remaining reader.new) }
    {
        let mut chunk = [0; CHUNK];
        'reads: for _ in rt.forever() {
            let Ok(piece) = read_piece(reader, &mut chunk) else {
                return Err(OperatorFault::ReadFault);
            };
            let Some(n) = piece else {
                continue;
            };
            if n == 0 {
                return self.take_last(rt, desk, source, witness, writer);
            }
            match self.take(rt, desk, source, witness, writer, &chunk[..n])? {
                Went::On => {}
                Went::Quits => return Ok(()),
            }
        }
        unreachable!()
    }
}
