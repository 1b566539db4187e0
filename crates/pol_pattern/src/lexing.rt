//! Cutting the bytes of a pattern into tokens.

ghost use Rattle.std.specs.Prelude.{◌≡◌, ◌+◌, ◌<◌, ◌≤◌, ◌==◌, slice_index, length, slice_get, IfOk};
ghost use Rattle.std.specs.Prelude.{IfSome};
ghost use Rattle.pol_pattern.specs.Spelling.{range_counts, has_counts as counts_by};
ghost use Rattle.pol_pattern.specs.Reading.{class_symbol_at, item_at, class_at, counts_in};
ghost use Rattle.pol_pattern.specs.Reading.{counted_at, token_at};
ghost use Rattle.pol_pattern.specs.Reading.{tokens_from, outermost as outermost_context};
ghost use Rattle.pol_pattern.specs.Reading.{context_after};
ghost use Rattle.basics.specs.Memory.{GivesUnlessMemory};
ghost use Rattle.pol_pattern.specs.Memory.{is_memory};

use crate::fault::PatternFault;
use crate::flat::Class;
use crate::token::{Repeat, Token};
use crate::version::Version;
use arrayvec::ArrayVec;
use basics::{read_number, split_once};
use std::alloc::Global;
use std::marker::Model;

/// How many parentheses may be open at once.
const DEPTH: usize = 32;

/// How many times a counted unit may stand.
const MOST: u32 = 32;

/// The symbol of a class that the bytes begin with, and how many of them spell it.
#[tactic(auto, unfolding(crate::specs::Reading::class_symbol_at))]
fn read_class_symbol(bytes: &[u8]) -> Option<(u8, usize)>
    ensures exact { result ≡ class_symbol_at bytes.now }
    ensures within { IfSome result (λ found. (0 < found.1) × (found.1 ≤ length bytes.now)) }
{
    match bytes.first()? {
        b'\\' => bytes.get(1).map(|symbol| (*symbol, 2)),
        b']' | b'-' => None,
        symbol => Some((*symbol, 1)),
    }
}

/// The item of a class that the bytes begin with, as its first symbol and its last, and how many
/// bytes spell it.
#[tactic(auto, unfolding(crate::specs::Reading::item_at))]
fn read_item(bytes: &[u8]) -> Option<((u8, u8), usize)>
    ensures exact { result ≡ item_at bytes.now }
    ensures within { IfSome result (λ found. (0 < found.1) × (found.1 ≤ length bytes.now)) }
{
    let (first, size) = read_class_symbol(bytes)?;
    if bytes.get(size) != Some(&b'-') {
        return Some(((first, first), size));
    }
    let (last, last_size) = read_class_symbol(&bytes[size + 1..])?;
    if last < first {
        return None;
    }
    Some(((first, last), size + 1 + last_size))
}

/// Whether the class after a `[` is negated.
fn is_negated(bytes: &[u8]) -> bool
    ensures { result ≡ (slice_index bytes.now 0 == 94) }
{
    bytes.first() == Some(&b'^')
}

/// The class that the bytes after a `[` begin with, and how many of them spell it.
fn read_class(bytes: &[u8]) -> Option<(Class, usize)>
    ensures exact { result ≡ class_at bytes.now }
    ensures within { IfSome result (λ found. found.1 ≤ length bytes.now) }
{
    let negated = is_negated(bytes);
    let start = usize::from(negated);
    let mut named = Class::none();
    let mut place = start;
    'items: while place < bytes.len() {
        if bytes[place] == b']' {
            if place == start {
                return None;
            }
            let class = if negated { named.complement() } else { named };
            return Some((class, place + 1));
        }
        let ((first, last), size) = read_item(&bytes[place..])?;
        named = named.with_range(first, last);
        place += size;
    }
    None
}

/// The counts of a repeat, at least and at most, by the digits of each.
fn read_counts(low: &[u8], high: &[u8]) -> Option<(u32, u32)>
    ensures { result ≡ range_counts low.now high.now }
{
    let low = read_number(low, 2)?;
    let high = read_number(high, 2)?;
    if low > high || high > MOST {
        return None;
    }
    Some((low, high))
}

/// The counts that stand between braces.
fn read_braced(text: &[u8]) -> Option<(u32, u32)>
    ensures { result ≡ counts_in text.now }
{
    match split_once(text, b',') {
        Some((low, high)) => read_counts(low, high),
        None => read_counts(text, text),
    }
}

/// The token that begins with a `{` at this place, and how many bytes it takes.
#[tactic(auto, unfolding(crate::specs::Reading::counted_at, crate::specs::Reading::counts_at))]
fn read_counted(has_atom: bool, place: usize, rest: &[u8]) -> Result<(Token, usize), PatternFault>
    ensures exact { result ≡ counted_at has_atom place rest.now }
    ensures within { IfOk result (λ found. (0 < found.1) × (found.1 ≤ length rest.now + 1)) }
{
    if !has_atom {
        return Err(PatternFault::NothingToRepeat(place));
    }
    let Some((text, _)) = split_once(rest, b'}') else {
        return Err(PatternFault::BadRepeat(place));
    };
    match read_braced(text) {
        Some((low, high)) => Ok((Token::Repeat(Repeat::Counted(low, high)), text.len() + 2)),
        None => Err(PatternFault::BadRepeat(place)),
    }
}

/// Whether braces count repeats.
fn has_counts(version: Version) -> bool
    ensures { result ≡ counts_by version }
{
    match version {
        Version::One => false,
        Version::Two => true,
    }
}

/// The token that begins with the byte at its place, and how many bytes it takes.
#[tactic(auto, unfolding(crate::specs::Reading::token_at))]
fn read_token(
    version: Version,
    has_atom: bool,
    place: usize,
    byte: u8,
    rest: &[u8],
) -> Result<(Token, usize), PatternFault>
    ensures exact { result ≡ token_at version has_atom place byte rest.now }
    ensures within { IfOk result (λ found. (0 < found.1) × (found.1 ≤ length rest.now + 1)) }
{
    match byte {
        b'(' => Ok((Token::Open, 1)),
        b')' => Ok((Token::Close, 1)),
        b'|' => Ok((Token::Bar, 1)),
        b'*' => Ok((Token::Repeat(Repeat::Star), 1)),
        b'+' => Ok((Token::Repeat(Repeat::Plus), 1)),
        b'?' => Ok((Token::Repeat(Repeat::Question), 1)),
        b'.' => Ok((Token::Atom(Class::any()), 1)),
        b'[' => match read_class(rest) {
            Some((class, size)) => Ok((Token::Atom(class), size + 1)),
            None => Err(PatternFault::BadClass(place)),
        },
        b'\\' => match rest.first() {
            Some(symbol) => Ok((Token::Atom(Class::only(*symbol)), 2)),
            None => Err(PatternFault::BadEscape(place)),
        },
        b'{' if has_counts(version) => read_counted(has_atom, place, rest),
        b'}' if has_counts(version) => Err(PatternFault::BadRepeat(place)),
        _ => Ok((Token::Atom(Class::only(byte)), 1)),
    }
}

/// What has to be known of the tokens before a place: where the open parentheses stand, and whether
/// there is an atom to repeat.
#[derive(Drop)]
struct Context {
    opened: ArrayVec<usize, DEPTH>,
    has_atom: bool,
}

impl Model for Context {
    ghost use Rattle.std.specs.Prelude.{reverse};
    ghost use Rattle.pol_pattern.specs.Reading.{Context as ContextValue};

    ghost Value = { ContextValue };

    ghost view = { λ c. record { opened = reverse c.opened.items; has_atom = c.has_atom } };
}

impl Context {
    /// Before the first token.
    fn outermost() -> Context
        ensures { result ≡ outermost_context }
    {
        Context {
            opened: ArrayVec::new(),
            has_atom: false,
        }
    }

    /// The context after a token at this place.
    #[tactic(auto, unfolding(crate::specs::Reading::context_after))]
    fn after(self, place: usize, token: &Token) -> Result<Context, PatternFault>
        ensures { result ≡ context_after place token.now self }
    {
        let Context {
            mut opened,
            has_atom,
        } = self;
        let has_atom = match token {
            Token::Atom(_) => true,
            Token::Repeat(_) if has_atom => true,
            Token::Repeat(_) => return Err(PatternFault::NothingToRepeat(place)),
            Token::Bar => false,
            Token::Open => {
                opened.try_push(place).map_err(|_| PatternFault::TooDeep)?;
                false
            }
            Token::Close => {
                opened.pop().ok_or(PatternFault::Unopened(place))?;
                true
            }
        };
        Ok(Context { opened, has_atom })
    }

    /// Whether there is an atom to repeat.
    fn has_atom(&self) -> bool
        ensures { result ≡ self.now.has_atom }
    {
        self.has_atom
    }

    /// The parenthesis that was opened last and is still open.
    fn last_opened(&self) -> Option<usize>
        ensures { result ≡ slice_get self.now.opened 0 }
    {
        self.opened.last().copied()
    }
}

/// The tokens of a pattern, or the first fault.
pub(crate) fn tokens(
    alloc: Global,
    version: Version,
    bytes: &[u8],
) -> Result<Vec<Token>, PatternFault>
    ensures { GivesUnlessMemory is_memory (λ tokens. tokens.items) result
        (tokens_from version 0 0 outermost_context bytes.now) }
{
    let mut tokens = Vec::new(alloc);
    let mut context = Context::outermost();
    let mut place = 0;
    'tokens: while place < bytes.len() {
        let rest = &bytes[place + 1..];
        let (token, size) = read_token(version, context.has_atom(), place, bytes[place], rest)?;
        context = context.after(place, &token)?;
        tokens.push(token)?;
        place += size;
    }
    match context.last_opened() {
        None => Ok(tokens),
        Some(last) => Err(PatternFault::Unclosed(last)),
    }
}
