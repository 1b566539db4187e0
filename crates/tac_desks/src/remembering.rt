//! Decisions that were made lately.

ghost use Rattle.std.specs.Prelude.{◌≡◌, List, Some, IfOk, IfSome};
ghost use Rattle.pol_text.specs.declared.subject.Subject.{Subject as SubjectValue};
ghost use Rattle.pol_text.specs.Policy.{decide};
ghost use Rattle.tac_desks.specs.Remembered.{AreDecisionsBy};

use lru::LruCache;
use pol_live::Live;
use pol_names::{Decision, Name};
use std::alloc::{AllocError, Global};
use std::mem;
use std::num::NonZeroUsize;

/// A user's command line.
#[derive(Drop, PartialEq, Eq, Hash)]
pub(crate) struct Command {
    user: Name,
    line: Vec<u8>,
}

impl Command {
    // The command, written down in the room of another.
    fn new(mut room: Vec<u8>, user: &Name, line: &[u8]) -> Result<Command, AllocError>
        ensures user { IfOk result (λ command. command.user ≡ user.now) }
        ensures line { IfOk result (λ command. command.line.items ≡ line.now) }
    {
        room.clear();
        room.extend_from_slice(line)?;
        Ok(Command {
            user: *user,
            line: room,
        })
    }
}

/// The decisions on the lines that were asked last, at most so many.
pub(crate) struct Remembered {
    pub(crate) kept: LruCache<Command, Decision>,
    // for the next command that is looked for: the room of the one before, if that was found, or
    // else none
    room: Vec<u8>,
}

// By hand, so that a proof of an owner has one call at each exit, not a drop of each field.
impl Drop for Remembered {
    fn drop(self) {
        let Remembered { kept: _, room: _ } = self;
    }
}

impl Remembered {
    const MOST: usize = 256;

    /// No decisions, and the room for all that there may be.
    pub(crate) fn new(alloc: Global) -> Result<Remembered, AllocError>
        ensures { IfOk result
            (λ all. (policy : List SubjectValue) → AreDecisionsBy policy all.kept.entries) }
    {
        let Some(most) = NonZeroUsize::new(Remembered::MOST) else {
            return Err(AllocError);
        };
        let kept = LruCache::new(alloc, most)?;
        Ok(Remembered {
            kept,
            room: Vec::new(alloc),
        })
    }

    // What was decided on the line, which is the last that was asked from then on.
    fn recall(&mut self, command: &Command) -> Option<Decision>
        ensures value { (policy : List SubjectValue) → AreDecisionsBy policy self.old.kept.entries
            → IfSome result
            (λ d. decide policy command.now.user command.now.line.items ≡ Some d) }
        ensures right { (policy : List SubjectValue) → AreDecisionsBy policy self.old.kept.entries
            → AreDecisionsBy policy self.new.kept.entries }
    {
        self.kept.get(command).copied()
    }

    // Remembers a decision, if there is room.
    fn keep(&mut self, command: Command, decision: Decision)
        ensures { (policy : List SubjectValue) → AreDecisionsBy policy self.old.kept.entries
            → decide policy command.user command.line.items ≡ Some decision
            → AreDecisionsBy policy self.new.kept.entries }
    {
        let _ = self.kept.put(command, decision);
    }

    // What the policy says of the line, which is remembered from then on if there is room.
    fn decide_anew(&mut self, live: &Live, command: Command) -> Option<Decision>
        requires { AreDecisionsBy live.now self.old.kept.entries }
        ensures decision { result ≡ decide live.now command.user command.line.items }
        ensures right { AreDecisionsBy live.now self.new.kept.entries }
    {
        let answer = live.decide(&command.user, &command.line);
        let Some(decision) = &answer else {
            return None;
        };
        let made = *decision;
        self.keep(command, made);
        answer
    }

    // What the policy says of the line, by what is remembered, or else by its automata.
    fn decide_command(&mut self, live: &Live, command: Command) -> Option<Decision>
        requires { AreDecisionsBy live.now self.old.kept.entries }
        ensures decision { result ≡ decide live.now command.user command.line.items }
        ensures right { AreDecisionsBy live.now self.new.kept.entries }
    {
        let known = self.recall(&command);
        if known.is_some() {
            self.room = command.line;
            known
        } else {
            self.decide_anew(live, command)
        }
    }

    /// What the policy says of a user's line, by what is remembered, or else by its automata.
    /// Nothing where there is no such user. Without memory nothing new is remembered. Looking for a
    /// line takes memory only where it is longer than all that were found in a row right before it;
    /// so it does after one that was not found, unless the line is empty.
    pub(crate) fn decide(
        &mut self,
        alloc: Global,
        live: &Live,
        user: &Name,
        line: &[u8],
    ) -> Option<Decision>
        requires { AreDecisionsBy live.now self.old.kept.entries }
        ensures decision { result ≡ decide live.now user.now line.now }
        ensures right { AreDecisionsBy live.now self.new.kept.entries }
    {
        let room = mem::replace(&mut self.room, Vec::new(alloc));
        match Command::new(room, user, line) {
            Ok(command) => self.decide_command(live, command),
            Err(_) => live.decide(user, line),
        }
    }

    /// Forgets all decisions. Takes no memory.
    pub(crate) fn clear(&mut self)
        ensures { (policy : List SubjectValue) → AreDecisionsBy policy self.new.kept.entries }
    {
        self.kept.clear();
    }
}
