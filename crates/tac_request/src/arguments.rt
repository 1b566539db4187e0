//! Arguments of a reply.

ghost use Rattle.std.specs.Prelude.{◌≡◌, ◌↔◌, ◌<◌, ◌≤◌, ◌++◌, [], ◌∷◌, length, map, IfOk, OnOk, OnErr};
ghost use Rattle.std.specs.Prelude.{◌+◌, ◌*◌, sum, vec_len, vec_capacity, IsTrue};
ghost use Rattle.std.specs.List.{concat};
ghost use Rattle.tac_wire.specs.Cut.{cut};
ghost use Rattle.tac_request.specs.Arguments.{level_argument as argument_for, level_arguments};

use arrayvec::ArrayVec;
use basics::{Bytes, Sequence, StructuralEq};
use itoa::Buffer;
use std::alloc::{AllocError, Global};
use std::marker::Model;

/// Arguments, at most 255 of at most 255 bytes each, as they lie in a body (RFC 8907, section 6.2):
/// their lengths, and then they themselves. A contract sees the list of them.
#[derive(Debug)]
pub struct Arguments {
    lengths: Vec<u8>,
    joined: Vec<u8>,
}

// By hand, so that a proof of an owner has one call at each exit, not a drop of each field.
impl Drop for Arguments {
    fn drop(self) {
        let Arguments {
            lengths: _,
            joined: _,
        } = self;
    }
}

impl Model for Arguments {
    ghost use Rattle.std.specs.Prelude.{◌≡◌, ◌≤◌, ◌*◌, List, ℕ, sum, length};
    ghost use Rattle.tac_wire.specs.Cut.{cut};

    ghost Value = { List (List ℕ) };

    ghost view = { λ arguments. cut arguments.lengths.items arguments.joined.items };

    ghost invariant = { λ arguments.
        (sum arguments.lengths.items ≡ length arguments.joined.items)
        × (length arguments.lengths.items ≤ 255)
        × (length arguments.joined.items ≤ 255 * length arguments.lengths.items) };
}

// Adds bytes for which there is room.
fn put(bytes: &mut Vec<u8>, more: &[u8])
    requires { vec_len bytes.old + length more.now ≤ vec_capacity bytes.old }
    ensures { bytes.new.items ≡ bytes.old.items ++ more.now }
{
    bytes.extend_from_slice(more).unwrap();
}

impl Arguments {
    /// No arguments. Takes no memory.
    pub fn new(alloc: Global) -> Arguments
        ensures { result ≡ [] }
    {
        Arguments {
            lengths: Vec::new(alloc),
            joined: Vec::new(alloc),
        }
    }

    /// Copies the arguments of these lengths that lie one after another.
    pub(crate) fn of_parts(
        alloc: Global,
        lengths: &[u8],
        joined: &[u8],
    ) -> Result<Arguments, AllocError>
        requires whole { sum lengths.now ≡ length joined.now }
        requires few { length lengths.now ≤ 255 }
        ensures { IfOk result (λ arguments. arguments ≡ cut lengths.now joined.now) }
    {
        let lengths = Vec::from_slice(alloc, lengths)?;
        let joined = Vec::from_slice(alloc, joined)?;
        Ok(Arguments { lengths, joined })
    }

    /// Whether there are none.
    pub fn is_empty(&self) -> bool
        ensures { IsTrue result ↔ (self.now ≡ []) }
    {
        self.lengths.as_slice().is_empty()
    }

    /// Their lengths, and they themselves one after another.
    pub fn parts(&self) -> (&[u8], &[u8])
        ensures lengths { result.0.now ≡ map length self.now }
        ensures joined { result.1.now ≡ concat self.now }
        ensures few { length result.0.now ≤ 255 }
        ensures short { length result.1.now ≤ 255 * length result.0.now }
    {
        (self.lengths.as_slice(), self.joined.as_slice())
    }

    /// Adds an argument at the end. The error means that memory ran out: nothing has changed.
    pub fn push(&mut self, argument: &[u8]) -> Result<(), AllocError>
        requires few { length self.old < 255 }
        requires short { length argument.now ≤ 255 }
        ensures ok { OnOk result (self.new ≡ self.old ++ argument.now ∷ []) }
        ensures err { OnErr result (self.new ≡ self.old) }
    {
        self.lengths.reserve(1)?;
        self.joined.reserve(argument.len())?;
        put(&mut self.lengths, &[argument.len() as u8]);
        put(&mut self.joined, argument);
        Ok(())
    }

    /// A copy of them. The error means that memory ran out.
    pub fn copy(&self) -> Result<Arguments, AllocError>
        ensures { IfOk result (λ copy. copy ≡ self.now) }
    {
        let lengths = Vec::from_slice(*self.lengths.allocator(), self.lengths.as_slice())?;
        let joined = Vec::from_slice(*self.joined.allocator(), self.joined.as_slice())?;
        Ok(Arguments { lengths, joined })
    }

    // A copy of each by itself.
    fn listed(&self, alloc: Global) -> Result<Sequence<Bytes>, AllocError>
        ensures { IfOk result (λ list. list ≡ self.now) }
    {
        tac_wire::cut(alloc, self.lengths.as_slice(), self.joined.as_slice())
    }
}

impl PartialEq for Arguments {
    ghost use Rattle.std.specs.Cmp.{decided, partial_equiv_from_equiv};
    ghost use Rattle.tac_request.specs.Arguments.{same_arguments, same_arguments-Decides};

    ghost eq = { same_arguments };

    ghost laws = { partial_equiv_from_equiv (decided same_arguments same_arguments-Decides) };

    fn eq(&self, other: &Arguments) -> bool {
        self.lengths.as_slice() == other.lengths.as_slice()
            && self.joined.as_slice() == other.joined.as_slice()
    }
}

impl Eq for Arguments {
    ghost use Rattle.std.specs.Cmp.{decided};
    ghost use Rattle.tac_request.specs.Arguments.{same_arguments, same_arguments-Decides};

    ghost laws = { decided same_arguments same_arguments-Decides };
}

impl StructuralEq for Arguments {
    ghost use Rattle.tac_request.specs.Arguments.{same_arguments-identical};

    ghost identical = { same_arguments-identical };
}

/// The name and the sign of the argument that carries a level.
const LEVEL_NAME: &[u8] = b"priv-lvl=";

/// The argument that carries a level: its name and sign, and the digits.
pub fn level_argument(level: u8) -> ArrayVec<u8, 12>
    ensures { result.items ≡ argument_for level }
{
    let mut argument = ArrayVec::new();
    argument.try_extend_from_slice(LEVEL_NAME).unwrap();
    argument
        .try_extend_from_slice(Buffer::new().format(level).as_bytes())
        .unwrap();
    argument
}

// A list of this text alone.
fn list_of(alloc: Global, text: &[u8]) -> Result<Sequence<Bytes>, AllocError>
    ensures { IfOk result (λ list. list ≡ text.now ∷ []) }
{
    let mut list = Sequence::new(alloc);
    list.push(Bytes::from_slice(alloc, text)?)?;
    Ok(list)
}

/// The arguments of a reply: at most a privilege level, which takes no memory, or a list. A
/// contract sees the list of them.
#[derive(Drop)]
pub struct ReplyArguments {
    pub(crate) level: Option<u8>,
    pub(crate) list: Option<Arguments>,
}

impl Model for ReplyArguments {
    ghost use Rattle.std.specs.Prelude.{List, ℕ};
    ghost use Rattle.std.specs.Option.{option_map_or};
    ghost use Rattle.tac_request.specs.Arguments.{level_arguments};

    ghost Value = { List (List ℕ) };

    ghost view = { λ args. option_map_or (λ list. list) args.list (level_arguments args.level) };
}

impl ReplyArguments {
    /// None, or this level alone.
    pub fn of_level(level: Option<u8>) -> ReplyArguments
        ensures { result ≡ level_arguments level }
    {
        ReplyArguments { level, list: None }
    }

    /// These.
    pub fn of_list(list: Arguments) -> ReplyArguments
        ensures { result ≡ list }
    {
        ReplyArguments {
            level: None,
            list: Some(list),
        }
    }

    /// A copy of each by itself. The error means that memory ran out.
    pub fn to_list(&self, alloc: Global) -> Result<Sequence<Bytes>, AllocError>
        ensures { IfOk result (λ list. list ≡ self.now) }
    {
        match (&self.list, self.level) {
            (Some(list), _) => list.listed(alloc),
            (None, Some(level)) => list_of(alloc, level_argument(level).as_slice()),
            (None, None) => Ok(Sequence::new(alloc)),
        }
    }
}
