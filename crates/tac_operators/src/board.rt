//! The one place where a line and its answer change hands, and who holds the batch.

ghost use Rattle.std.specs.Prelude.{◌≡◌, OnOk, OnErr};
ghost use Rattle.tac_operators.specs.Board as board;

use crate::part::Part;
use basics::Bytes;
use pol_names::Name;
use std::alloc::{AllocError, Global};
use std::mem;

/// Who types: the number of his session, which no other one has at the time, and the name that he
/// said, if he said one.
#[derive(Clone, Copy)]
pub(crate) struct Operator {
    pub(crate) number: usize,
    pub(crate) name: Option<Name>,
}

/// A line, or what it was answered so far, and whose it is.
#[derive(Drop)]
pub(crate) struct Message {
    pub(crate) operator: Operator,
    pub(crate) part: Part,
    pub(crate) text: Bytes,
}

/// What lies there.
#[derive(Drop)]
pub(crate) enum Mailbox {
    /// Nothing.
    Free,
    /// A line that the console hasn't taken yet.
    Typed(Message),
    /// What a line that the console took is answered so far.
    Taken(Message),
    /// The whole answer.
    Answered(Message),
    /// The console has ended.
    Ended,
}

/// What becomes of a line that is to be put there.
#[derive(Clone, Copy)]
pub(crate) enum Ruling {
    /// It is there.
    Put,
    /// It isn't, since this one holds the batch.
    Busy(Operator),
    /// It isn't, since something lies there.
    Occupied,
    /// It isn't, since the console has ended.
    Ended,
}

/// The place, and who holds the batch of the console.
#[derive(Drop)]
pub(crate) struct Board {
    pub(crate) mailbox: Mailbox,
    pub(crate) holder: Option<Operator>,
}

impl Board {
    /// Nothing lies there, and nobody holds a batch.
    pub(crate) fn new() -> Board
        ensures { result ≡ board.empty }
    {
        Board {
            mailbox: Mailbox::Free,
            holder: None,
        }
    }

    /// Whether a line can be put there, or never will be.
    pub(crate) fn is_ready(&self) -> bool {
        matches!(self.mailbox, Mailbox::Free | Mailbox::Ended)
    }

    /// Whether a line waits for the console, or none will come.
    pub(crate) fn has_line(&self) -> bool {
        matches!(self.mailbox, Mailbox::Typed(_) | Mailbox::Ended)
    }

    /// Whether an answer lies there, or none will come.
    pub(crate) fn has_answer(&self) -> bool {
        matches!(self.mailbox, Mailbox::Answered(_) | Mailbox::Ended)
    }

    // What becomes of a line of this operator.
    fn ruling(&self, operator: Operator, part: Part) -> Ruling
        ensures { result ≡ board.ruling self.now operator part }
    {
        match self.mailbox {
            Mailbox::Free => {}
            Mailbox::Ended => return Ruling::Ended,
            _ => return Ruling::Occupied,
        }
        match self.holder {
            Some(holder) if part != Part::Beside && holder.number != operator.number => {
                Ruling::Busy(holder)
            }
            _ => Ruling::Put,
        }
    }

    /// Puts a line there, if it may go now.
    pub(crate) fn put(&mut self, message: Message) -> Ruling
        ensures ruling { result ≡ board.ruling self.old message.operator message.part }
        ensures board { self.new ≡ board.after_put self.old message result }
    {
        let ruling = self.ruling(message.operator, message.part);
        if let Ruling::Put = ruling {
            self.mailbox = Mailbox::Typed(message);
        }
        ruling
    }

    /// Takes the line that waits. Its answer is empty so far.
    pub(crate) fn take_line(&mut self, alloc: Global) -> Option<Bytes>
        ensures line { result ≡ board.line_of self.old.mailbox }
        ensures board { self.new ≡ board.after_taken self.old }
    {
        match mem::replace(&mut self.mailbox, Mailbox::Free) {
            Mailbox::Typed(message) => {
                let Message {
                    operator,
                    part,
                    text,
                } = message;
                self.mailbox = Mailbox::Taken(Message {
                    operator,
                    part,
                    text: Bytes::new(alloc),
                });
                Some(text)
            }
            other => {
                self.mailbox = other;
                None
            }
        }
    }

    /// Adds to the answer of the line that was taken. False where none was: the text is nobody's
    /// answer then.
    pub(crate) fn add(&mut self, text: &[u8]) -> Result<bool, AllocError>
        ensures answer { OnOk result (board.Adds text.now self.old self.new result) }
        ensures err { OnErr result (self.new ≡ self.old) }
    {
        match &mut self.mailbox {
            Mailbox::Taken(message) => {
                message.text.extend_from_slice(text)?;
                Ok(true)
            }
            _ => Ok(false),
        }
    }

    /// The name that the operator said whose line was taken, and has no whole answer yet.
    pub(crate) fn typist(&self) -> Option<Name>
        ensures { result ≡ board.typist_at self.now.mailbox }
    {
        match &self.mailbox {
            Mailbox::Taken(message) => message.operator.name,
            _ => None,
        }
    }

    /// The line that was taken, if one was, has its whole answer now.
    pub(crate) fn finish(&mut self)
        ensures { self.new ≡ board.after_answered self.old }
    {
        match mem::replace(&mut self.mailbox, Mailbox::Free) {
            Mailbox::Taken(message) => {
                match message.part {
                    Part::Begins => self.holder = Some(message.operator),
                    Part::Ends => self.holder = None,
                    Part::Edits | Part::Beside => {}
                }
                self.mailbox = Mailbox::Answered(message);
            }
            other => self.mailbox = other,
        }
    }

    /// Takes the answer of this session's line, if it lies there.
    pub(crate) fn take_answer(&mut self, number: usize) -> Option<Bytes>
        ensures answer { result ≡ board.answer_for number self.old.mailbox }
        ensures board { self.new ≡ board.after_answer_taken number self.old }
    {
        match mem::replace(&mut self.mailbox, Mailbox::Free) {
            Mailbox::Answered(message) if message.operator.number == number => Some(message.text),
            other => {
                self.mailbox = other;
                None
            }
        }
    }

    /// The console has ended: what lies there is nobody's any more, but for what the line that was
    /// taken last was answered so far.
    pub(crate) fn end(&mut self) -> Option<Bytes>
        ensures last { result ≡ board.last_of self.old.mailbox }
        ensures board { self.new ≡ board.ended }
    {
        self.holder = None;
        match mem::replace(&mut self.mailbox, Mailbox::Ended) {
            Mailbox::Taken(message) => Some(message.text),
            _ => None,
        }
    }

    /// Whether this session holds the batch.
    pub(crate) fn is_held_by(&self, number: usize) -> bool {
        match self.holder {
            Some(holder) => holder.number == number,
            None => false,
        }
    }
}
