//! The words with which lines of a devices' file begin, and what is meant by others.

ghost use Rattle.std.specs.Prelude.{◌≡◌, Some, IfOk};
ghost use Rattle.tac_devices_lint.specs.Words as words;

use crate::meant::has_address;
use basics::split_once;
use std::alloc::{AllocError, Global};
use std::fmt;
use strsim::generic_levenshtein;

/// A word with which lines of a devices' file begin.
#[derive(Clone, Copy, PartialEq, Eq)]
pub enum LineWord {
    Device,
    At,
    Key,
    OldKey,
    Tls,
    Connections,
}

impl LineWord {
    pub(crate) fn text(&self) -> &'static str
        ensures { result.now ≡ words.word_text self.now }
    {
        match self {
            LineWord::Device => "device",
            LineWord::At => "at",
            LineWord::Key => "key",
            LineWord::OldKey => "old-key",
            LineWord::Tls => "tls",
            LineWord::Connections => "connections",
        }
    }

    /// The word that a text is.
    pub(crate) fn read(word: &[u8]) -> Option<LineWord>
        ensures { result ≡ words.word_of word.now }
    {
        if word == b"device".as_slice() {
            return Some(LineWord::Device);
        }
        if word == b"at".as_slice() {
            return Some(LineWord::At);
        }
        if word == b"key".as_slice() {
            return Some(LineWord::Key);
        }
        if word == b"old-key".as_slice() {
            return Some(LineWord::OldKey);
        }
        if word == b"tls".as_slice() {
            return Some(LineWord::Tls);
        }
        if word == b"connections".as_slice() {
            return Some(LineWord::Connections);
        }
        None
    }
}

impl fmt::Display for LineWord {
    ghost output = { λ word. Some (words.word_text word) };

    fn fmt<W: fmt::Write>(&self, f: &mut fmt::Formatter<W>) -> fmt::Result {
        f.write_str(self.text())
    }
}

/// The first word of a text, and what comes after the space after it.
pub(crate) fn words_of(text: &[u8]) -> (&[u8], &[u8])
    ensures { (result.0.now, result.1.now) ≡ words.words_of text.now }
{
    match split_once(text, b' ') {
        Some(parts) => parts,
        None => (text, &[]),
    }
}

/// How long a word is at most that is two changes away from one of at most 11 bytes.
const LONGEST: usize = 13;

/// What lines of other files say in these words.
const OTHERS: [(&[u8], LineWord); 22] = [
    (b"addr", LineWord::At),
    (b"address", LineWord::At),
    (b"hostname", LineWord::Device),
    (b"ip", LineWord::At),
    (b"ip-address", LineWord::At),
    (b"ipaddr", LineWord::At),
    (b"ipv4", LineWord::At),
    (b"ipv6", LineWord::At),
    (b"maxsess", LineWord::Connections),
    (b"name", LineWord::Device),
    (b"net", LineWord::At),
    (b"network", LineWord::At),
    (b"old-secret", LineWord::OldKey),
    (b"passwd", LineWord::Key),
    (b"password", LineWord::Key),
    (b"prefix", LineWord::At),
    (b"psk", LineWord::Key),
    (b"router", LineWord::Device),
    (b"secret", LineWord::Key),
    (b"shared-secret", LineWord::Key),
    (b"subnet", LineWord::At),
    (b"switch", LineWord::Device),
];

// By another word for one.
fn other_word(word: &[u8]) -> Option<LineWord> {
    let (_, meant) = OTHERS.iter().find(|(name, _)| *name == word)?;
    Some(*meant)
}

// By a word for a device, or for its address: that follows.
fn host_word(word: &[u8], rest: &[u8]) -> Option<LineWord> {
    if word != b"host".as_slice() && word != b"client".as_slice() && word != b"nas".as_slice() {
        return None;
    }
    let (first, _) = words_of(rest);
    Some(if has_address(first) {
        LineWord::At
    } else {
        LineWord::Device
    })
}

// How many bytes have to be put in, taken out or exchanged to make the one word of the other.
fn distance(alloc: Global, from: &[u8], to: &[u8]) -> Result<usize, AllocError>
    ensures { IfOk result (λ changes. changes ≡ words.distance from.now to.now) }
{
    generic_levenshtein(alloc, from, to)
}

// The first of these words that is no further away.
fn first_within(
    alloc: Global,
    known: &[LineWord],
    from: &[u8],
    most: usize,
) -> Result<Option<LineWord>, AllocError>
    ensures { IfOk result (λ found. found ≡ words.first_within known.now from.now most) }
{
    'words: for word in known {
        let changes = distance(alloc, from, word.text().as_bytes())?;
        if changes <= most {
            return Ok(Some(*word));
        }
    }
    Ok(None)
}

// The nearest word of those that are at most two changes away.
fn nearest_of(alloc: Global, from: &[u8]) -> Result<Option<LineWord>, AllocError>
    ensures { IfOk result (λ found. found ≡ words.nearest_of from.now) }
{
    let known = [
        LineWord::Device,
        LineWord::At,
        LineWord::Key,
        LineWord::OldKey,
        LineWord::Tls,
        LineWord::Connections,
    ];
    let half = from.len() / 2;
    if let Some(word) = first_within(alloc, &known, from, 0)? {
        return Ok(Some(word));
    }
    if let Some(word) = first_within(alloc, &known, from, 1_usize.min(half))? {
        return Ok(Some(word));
    }
    first_within(alloc, &known, from, 2_usize.min(half))
}

/// The word that is meant by one that no line begins with, as far as it can be told. This follows it.
pub(crate) fn meant_word(
    alloc: Global,
    word: &[u8],
    rest: &[u8],
) -> Result<Option<LineWord>, AllocError> {
    if word.len() > LONGEST {
        return Ok(None);
    }
    let lower = word.to_ascii_lowercase(alloc)?;
    let lower = lower.as_slice();
    if let Some(word) = other_word(lower) {
        return Ok(Some(word));
    }
    if let Some(word) = host_word(lower, rest) {
        return Ok(Some(word));
    }
    nearest_of(alloc, lower)
}
