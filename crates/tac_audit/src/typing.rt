//! What was typed at the console, and the first bytes of what it answered, without secrets.

ghost use Rattle.std.specs.Prelude.{◌≡◌, ◌≤◌, ◌+◌, ◌++◌, ℕ, List, length, map, take, IfOk, OnOk};
ghost use Rattle.basics.specs.Lines.{lines_of};
ghost use Rattle.tac_audit.specs.Masking as words;
ghost use Rattle.tac_audit.specs.Masking.{IsToldWhole};
ghost use Rattle.tac_audit.specs.declared.event.Typist.{Typist as TypistValue};

use crate::event::{Typed, Typist};
use crate::masking::{masked, masked_answer};
use basics::{Bytes, Lines, Sequence};
use std::alloc::{AllocError, Global};

// How many bytes of an answer are told at most.
const MOST_TOLD: usize = 4096;

// Adds what of a piece is within the bytes that are told.
#[tactic(auto, using(crate::proofs::AnswerFacts::front_all, crate::proofs::AnswerFacts::front_more), unfolding(crate::specs::Masking::most_told))]
fn push_told(front: &mut Bytes, piece: &[u8]) -> Result<(), AllocError>
    requires { length front.old ≤ words.most_told }
    ensures { OnOk result (front.new ≡ take words.most_told (front.old ++ piece.now)) }
{
    let room = MOST_TOLD - front.len();
    if piece.len() <= room {
        front.extend_from_slice(piece)
    } else {
        front.extend_from_slice(&piece[..room])
    }
}

// A size with that of one more piece. The error stands for a size that no memory has.
fn size_with(size: u64, piece: &[u8]) -> Result<u64, AllocError>
    ensures { IfOk result (λ sum. sum ≡ size + length piece.now) }
{
    match size.checked_add(piece.len() as u64) {
        Some(sum) => Ok(sum),
        None => Err(AllocError),
    }
}

// A line of an answer without its secret, with its LF.
fn line_told(alloc: Global, line: &[u8]) -> Result<Bytes, AllocError>
    ensures { IfOk result (λ text. text ≡ words.with_end (words.masked_answer line.now)) }
{
    let mut text = masked_answer(alloc, line)?;
    text.extend_from_slice(b"\n")?;
    Ok(text)
}

// What is told of an answer, and how many bytes it has, both without its secrets. No more is kept
// of it meanwhile than that and a line.
#[tactic(auto, using(crate::proofs::AnswerFacts::step_front, crate::proofs::AnswerFacts::step_size, crate::proofs::AnswerFacts::taken_within, crate::proofs::AnswerFacts::last_front))]
fn front_of(alloc: Global, answer: &[u8]) -> Result<(Bytes, u64), AllocError>
    ensures front { IfOk result
        (λ told. told.0 ≡ take words.most_told (words.masked_text answer.now)) }
    ensures size { IfOk result (λ told. told.1 ≡ length (words.masked_text answer.now)) }
{
    let mut front = Bytes::new(alloc);
    let mut size = 0;
    let mut lines = Lines::new(answer);
    'lines: while let Some((_, line)) = lines.take_line() {
        let text = line_told(alloc, line)?;
        push_told(&mut front, text.as_slice())?;
        size = size_with(size, text.as_slice())?;
    }
    Ok((front, size))
}

// How many bytes an answer has, where only the first are told.
#[tactic(auto, unfolding(crate::specs::Masking::most_told))]
fn size_told(size: u64) -> Option<u64>
    ensures { result ≡ words.size_told size }
{
    if size > MOST_TOLD as u64 {
        Some(size)
    } else {
        None
    }
}

// The lines of a text.
fn texts_of(alloc: Global, text: &[u8]) -> Result<Sequence<Bytes>, AllocError>
    ensures { IfOk result (λ texts. texts ≡ lines_of text.now) }
{
    let mut texts = Sequence::new(alloc);
    let mut lines = Lines::new(text);
    'lines: while let Some((_, line)) = lines.take_line() {
        let text = Bytes::from_slice(alloc, line)?;
        texts.push(text)?;
    }
    Ok(texts)
}

/// What was typed at the console, by whom, and what it was answered, without secrets: the lines of
/// the answer's first 4,096 bytes, and how many bytes it has where that is more. The error means
/// that memory ran out. Linear; an answer takes no more memory than its longest line and these
/// bytes.
#[tactic(auto, unfolding(crate::specs::Masking::typed_of))]
pub fn typed(
    alloc: Global,
    time: Bytes,
    typist: Typist,
    line: &[u8],
    answer: &[u8],
) -> Result<Typed, AllocError>
    ensures typed { IfOk result (λ typed. typed ≡ words.typed_of time typist line.now answer.now) }
    // An answer that is no longer than that is told whole.
    ensures whole { (time : List ℕ) (typist : TypistValue) (line answer : List ℕ) →
        IsToldWhole time typist line answer }
    // Answers that differ only in their secrets are told alike, also where they are cut.
    ensures hidden { (time : List ℕ) (typist : TypistValue) (line a b : List ℕ) →
        map words.masked_answer (lines_of a) ≡ map words.masked_answer (lines_of b) →
        words.typed_of time typist line a ≡ words.typed_of time typist line b }
{
    let console = masked(alloc, line)?;
    let (front, size) = front_of(alloc, answer)?;
    Ok(Typed {
        time,
        typist,
        console,
        answer_bytes: size_told(size),
        answer: texts_of(alloc, front.as_slice())?,
    })
}
