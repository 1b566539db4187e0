//! What is asked of the desk, which has the policy and the records, and what it answers.

use crate::reading::{Reading, account_of, command_of, login_of, service_of};
use crate::typed::Typed;
use basics::{Bytes, StructuralEq};
use pol_names::{By, SubjectId};
use std::alloc::AllocError;
use tac_authen::Service;
use tac_request::{Arguments, Record};
use tac_wire::Header;

/// How a user proves to be the one named.
#[derive(Drop, PartialEq, Eq)]
pub enum Proof {
    /// The password itself.
    Plain(Typed),
    /// A response to a challenge, by the password (RFC 1994).
    Chap {
        id: u8,
        challenge: Bytes,
        response: [u8; 16],
    },
}

/// What is asked of the desk.
#[derive(PartialEq, Eq)]
pub enum Ask {
    /// Whether the proof is this user's, for this service.
    Authenticate {
        user: Bytes,
        service: Service,
        proof: Proof,
    },
    /// Whether this user may run this command line, which may be any bytes.
    Authorise {
        user: Bytes,
        line: Bytes,
    },
    /// What this user is given for a service, perhaps with a protocol. Both may be any bytes.
    Serve {
        user: Bytes,
        service: Bytes,
        protocol: Option<Bytes>,
    },
    /// That this record be stored.
    Account(Record),
}

// By hand, so that a proof of an owner has one call at each exit, not a drop of each field.
impl Drop for Ask {
    fn drop(self) {
        match self {
            Ask::Authenticate {
                user: _,
                service: _,
                proof: _,
            } => {}
            Ask::Authorise { user: _, line: _ } => {}
            Ask::Serve {
                user: _,
                service: _,
                protocol: _,
            } => {}
            Ask::Account(_) => {}
        }
    }
}

impl Ask {
    ghost use Rattle.std.specs.Prelude.{◌≡◌};
    ghost use Rattle.tac_conn.specs.Reading.{rejoined};

    /// What was read beside it, with what it has of that: the user, the line and the task.
    pub(crate) fn rejoined(self, reading: Reading) -> Reading
        ensures { result ≡ rejoined self reading }
    {
        match self {
            Ask::Authenticate {
                user,
                service: _,
                proof: _,
            } => login_of(reading, user),
            Ask::Authorise { user, line } => command_of(reading, user, line),
            Ask::Serve {
                user,
                service: _,
                protocol: _,
            } => service_of(reading, user),
            Ask::Account(record) => {
                let (user, task) = record.into_texts();
                account_of(reading, user, task)
            }
        }
    }
}

impl StructuralEq for Ask {
    ghost use Rattle.std.proofs.Common.{rules};

    ghost identical = { Prim.search rules };
}

/// Which of these is asked.
#[derive(Clone, Copy, Debug, PartialEq, Eq)]
pub enum AskKind {
    Authentication,
    Authorisation,
    Accounting,
}

/// An answer of the desk.
#[derive(Debug, Drop, PartialEq, Eq)]
pub enum Answer {
    /// The proof is the user's.
    Pass,
    /// The proof isn't the user's.
    Fail,
    /// The policy has no such user.
    UnknownUser,
    /// The command line has a byte that is no symbol.
    Unprintable,
    /// The command line is denied, by this rule or by default.
    Denied(By),
    /// The command line is permitted, perhaps with the privilege level of a shell.
    Permitted(Option<u8>),
    /// Nobody said anything of this service.
    Unserved,
    /// This subject refuses the service.
    Refused(SubjectId),
    /// The service is granted, or a shell starts, with these arguments.
    Granted(Arguments),
    /// The record is stored.
    Stored,
    /// There is no room for the record, which isn't stored.
    BookFull,
}

// Of each kind by itself: the prover doesn't split all pairs of kinds at once.
impl StructuralEq for Answer {
    ghost use Rattle.std.specs.Prelude.{◌≡◌, true};
    ghost use Rattle.std.proofs.Common.{ap, rules};
    ghost use Rattle.tac_request.specs.Arguments.{same_arguments-identical};
    ghost use Rattle.tac_conn.specs.declared.ask.Answer.{Answer as AnswerValue};
    ghost use Rattle.tac_conn.specs.declared.ask.Answer.TheVariants.{Pass, Fail, UnknownUser};
    ghost use Rattle.tac_conn.specs.declared.ask.Answer.TheVariants.{Unprintable, Denied};
    ghost use Rattle.tac_conn.specs.declared.ask.Answer.TheVariants.{Permitted, Unserved, Refused};
    ghost use Rattle.tac_conn.specs.declared.ask.Answer.TheVariants.{Granted, Stored, BookFull};

    ghost identical = { λ x. elim x as (λ k.
        (y : AnswerValue) → ⟦<Answer as PartialEq>⟧.eq k y ≡ true → k ≡ y) [
          | Pass ↦ λ y e. Prim.search rules
          | Fail ↦ λ y e. Prim.search rules
          | UnknownUser ↦ λ y e. Prim.search rules
          | Unprintable ↦ λ y e. Prim.search rules
          | Denied a ↦ λ y e. Prim.search rules
          | Permitted a ↦ λ y e. Prim.search rules
          | Unserved ↦ λ y e. Prim.search rules
          | Refused a ↦ λ y e. Prim.search rules
          | Granted a ↦ λ y. elim y as (λ k.
              ⟦<Answer as PartialEq>⟧.eq (Granted a) k ≡ true → Granted a ≡ k) [
                | Pass ↦ λ e. Prim.search rules
                | Fail ↦ λ e. Prim.search rules
                | UnknownUser ↦ λ e. Prim.search rules
                | Unprintable ↦ λ e. Prim.search rules
                | Denied b ↦ λ e. Prim.search rules
                | Permitted b ↦ λ e. Prim.search rules
                | Unserved ↦ λ e. Prim.search rules
                | Refused b ↦ λ e. Prim.search rules
                | Granted b ↦ λ e. ap Granted (Prim.search (rules, same_arguments-identical))
                | Stored ↦ λ e. Prim.search rules
                | BookFull ↦ λ e. Prim.search rules
              ]
          | Stored ↦ λ y e. Prim.search rules
          | BookFull ↦ λ y e. Prim.search rules
        ] };
}

impl Answer {
    ghost use Rattle.std.specs.Prelude.{◌≡◌, IfSome, IfNone, IfOk, OnErr};
    ghost use Rattle.tac_conn.specs.Ask.{kind_of_answer, HasArguments};

    /// Which kind of ask this answers.
    pub fn kind(&self) -> AskKind
        ensures { result ≡ kind_of_answer self.now }
    {
        match self {
            Answer::Pass | Answer::Fail => AskKind::Authentication,
            Answer::Stored | Answer::BookFull => AskKind::Accounting,
            _ => AskKind::Authorisation,
        }
    }

    // An equal one, if it has no arguments.
    fn small(&self) -> Option<Answer>
        ensures some { IfSome result (λ answer. answer ≡ self.now) }
        ensures none { IfNone result (HasArguments self.now) }
    {
        match self {
            Answer::Pass => Some(Answer::Pass),
            Answer::Fail => Some(Answer::Fail),
            Answer::UnknownUser => Some(Answer::UnknownUser),
            Answer::Unprintable => Some(Answer::Unprintable),
            Answer::Denied(by) => Some(Answer::Denied(*by)),
            Answer::Permitted(level) => Some(Answer::Permitted(*level)),
            Answer::Unserved => Some(Answer::Unserved),
            Answer::Refused(owner) => Some(Answer::Refused(*owner)),
            Answer::Granted(_) => None,
            Answer::Stored => Some(Answer::Stored),
            Answer::BookFull => Some(Answer::BookFull),
        }
    }

    /// An equal one. Only one with arguments takes memory; the error means that there was none.
    pub fn copy(&self) -> Result<Answer, AllocError>
        ensures copy { IfOk result (λ answer. answer ≡ self.now) }
        ensures memory { OnErr result (HasArguments self.now) }
    {
        match self {
            Answer::Granted(arguments) => {
                let arguments = arguments.copy()?;
                Ok(Answer::Granted(arguments))
            }
            _ => self.small().ok_or(AllocError),
        }
    }
}

/// The place of a reply that is still to be given.
#[derive(Clone, Copy, Debug, PartialEq, Eq)]
pub struct Slot {
    // the reply's, but for the length
    pub(crate) header: Header,
    pub(crate) kind: AskKind,
    // whether the connection stays open after the reply
    pub(crate) single: bool,
}

impl Slot {
    ghost use Rattle.std.specs.Prelude.{◌≡◌};
    ghost use Rattle.tac_conn.specs.Ask.{kind_asked};

    /// What was asked.
    pub fn kind(self) -> AskKind
        ensures { result ≡ kind_asked self }
    {
        self.kind
    }
}
