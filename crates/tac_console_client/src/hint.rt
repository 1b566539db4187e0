//! The word that a line was probably meant to begin with.

ghost use Rattle.std.specs.Prelude.{◌≡◌, Some, IfOk};
ghost use Rattle.std.specs.List.{list_any};
ghost use Rattle.std.specs.Str.{bytes_eq};
ghost use Rattle.tac_console_client.specs.Hints as hints;

use basics::{split_once, without_leading_spaces};
use std::alloc::{AllocError, Global};
use std::fmt;
use strsim::generic_levenshtein;

/// A word with which lines of a console begin, at a socket, or one of the client.
#[derive(Clone, Copy, PartialEq, Eq)]
pub(crate) enum ConsoleWord {
    Policy,
    Shadow,
    Reach,
    Tally,
    Why,
    Given,
    Records,
    Status,
    Help,
    Operator,
    Begin,
    Commit,
    Abandon,
    Add,
    Remove,
    Move,
    Login,
    Enable,
    LoginHash,
    EnableHash,
    Clear,
    Priv,
    Service,
    Refuse,
    Insert,
    Drop,
    Shift,
    Reload,
    Rotate,
    Quit,
    Exit,
    Logout,
}

impl ConsoleWord {
    fn text(&self) -> &'static str
        ensures { result.now ≡ hints.word_text self.now }
    {
        match self {
            ConsoleWord::Policy => "policy",
            ConsoleWord::Shadow => "shadow",
            ConsoleWord::Reach => "reach",
            ConsoleWord::Tally => "tally",
            ConsoleWord::Why => "why",
            ConsoleWord::Given => "given",
            ConsoleWord::Records => "records",
            ConsoleWord::Status => "status",
            ConsoleWord::Help => "help",
            ConsoleWord::Operator => "operator",
            ConsoleWord::Begin => "begin",
            ConsoleWord::Commit => "commit",
            ConsoleWord::Abandon => "abandon",
            ConsoleWord::Add => "add",
            ConsoleWord::Remove => "remove",
            ConsoleWord::Move => "move",
            ConsoleWord::Login => "login",
            ConsoleWord::Enable => "enable",
            ConsoleWord::LoginHash => "login-hash",
            ConsoleWord::EnableHash => "enable-hash",
            ConsoleWord::Clear => "clear",
            ConsoleWord::Priv => "priv",
            ConsoleWord::Service => "service",
            ConsoleWord::Refuse => "refuse",
            ConsoleWord::Insert => "insert",
            ConsoleWord::Drop => "drop",
            ConsoleWord::Shift => "shift",
            ConsoleWord::Reload => "reload",
            ConsoleWord::Rotate => "rotate",
            ConsoleWord::Quit => "quit",
            ConsoleWord::Exit => "exit",
            ConsoleWord::Logout => "logout",
        }
    }
}

impl fmt::Display for ConsoleWord {
    ghost output = { λ word. Some (hints.word_text word) };

    fn fmt<W: fmt::Write>(&self, f: &mut fmt::Formatter<W>) -> fmt::Result {
        f.write_str(self.text())
    }
}

/// In the order in which the nearest is looked for.
fn console_words() -> [ConsoleWord; 32]
    ensures { result ≡ hints.console_words }
{
    [
        ConsoleWord::Policy,
        ConsoleWord::Shadow,
        ConsoleWord::Reach,
        ConsoleWord::Tally,
        ConsoleWord::Why,
        ConsoleWord::Given,
        ConsoleWord::Records,
        ConsoleWord::Status,
        ConsoleWord::Help,
        ConsoleWord::Operator,
        ConsoleWord::Begin,
        ConsoleWord::Commit,
        ConsoleWord::Abandon,
        ConsoleWord::Add,
        ConsoleWord::Remove,
        ConsoleWord::Move,
        ConsoleWord::Login,
        ConsoleWord::Enable,
        ConsoleWord::LoginHash,
        ConsoleWord::EnableHash,
        ConsoleWord::Clear,
        ConsoleWord::Priv,
        ConsoleWord::Service,
        ConsoleWord::Refuse,
        ConsoleWord::Insert,
        ConsoleWord::Drop,
        ConsoleWord::Shift,
        ConsoleWord::Reload,
        ConsoleWord::Rotate,
        ConsoleWord::Quit,
        ConsoleWord::Exit,
        ConsoleWord::Logout,
    ]
}

/// How long a word is at most that is two changes away from one of at most 11 bytes.
const LONGEST: usize = 13;

fn first_word(line: &[u8]) -> &[u8]
    ensures { result.now ≡ hints.first_word line.now }
{
    match split_once(line, b' ') {
        Some((word, _)) => word,
        None => line,
    }
}

fn is_among(words: &[ConsoleWord], text: &[u8]) -> bool
    ensures { result ≡ list_any (λ word. bytes_eq text.now (hints.word_text word)) words.now }
{
    words.iter().any(|word| text == word.text().as_bytes())
}

// How many bytes have to be put in, taken out or exchanged to make the one word of the other.
fn distance(alloc: Global, from: &[u8], to: &[u8]) -> Result<usize, AllocError>
    ensures { IfOk result (λ changes. changes ≡ hints.distance from.now to.now) }
{
    generic_levenshtein(alloc, from, to)
}

// The first of these words that is no further away.
fn first_within(
    alloc: Global,
    words: &[ConsoleWord],
    from: &[u8],
    most: usize,
) -> Result<Option<ConsoleWord>, AllocError>
    ensures { IfOk result (λ found. found ≡ hints.first_within words.now from.now most) }
{
    'words: for word in words {
        let changes = distance(alloc, from, word.text().as_bytes())?;
        if changes <= most {
            return Ok(Some(*word));
        }
    }
    Ok(None)
}

// The nearest word of those that are at most two changes away.
fn nearest_in(
    alloc: Global,
    words: &[ConsoleWord],
    from: &[u8],
) -> Result<Option<ConsoleWord>, AllocError>
    ensures { IfOk result (λ found. found ≡ hints.nearest_in words.now from.now) }
{
    let half = from.len() / 2;
    if let Some(word) = first_within(alloc, words, from, 0)? {
        return Ok(Some(word));
    }
    if let Some(word) = first_within(alloc, words, from, 1_usize.min(half))? {
        return Ok(Some(word));
    }
    first_within(alloc, words, from, 2_usize.min(half))
}

fn nearest(alloc: Global, word: &[u8]) -> Result<Option<ConsoleWord>, AllocError>
    ensures { IfOk result (λ found. found ≡ hints.nearest word.now) }
{
    let words = console_words();
    if is_among(&words, word) || word.len() > LONGEST {
        return Ok(None);
    }
    let lower = word.to_ascii_lowercase(alloc)?;
    nearest_in(alloc, &words, lower.as_slice())
}

/// The word of the console that is nearest to the first word of a line, if it is none itself and one
/// is near. The error means that memory ran out.
pub(crate) fn hint(alloc: Global, line: &[u8]) -> Result<Option<ConsoleWord>, AllocError>
    ensures { IfOk result (λ found. found ≡ hints.hint line.now) }
{
    nearest(alloc, first_word(without_leading_spaces(line)))
}
