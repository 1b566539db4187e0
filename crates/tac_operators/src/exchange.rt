//! Where sessions and the console meet: one line at a time, and its answer.

ghost use Rattle.std.specs.Prelude.{None};

use crate::board::{Board, Message, Operator, Ruling};
use basics::Bytes;
use pol_names::Name;
use std::alloc::{AllocError, Global};
use std::io::{self, Read, Write};
use std::sync::atomic::{AtomicBool, AtomicU64, Ordering};
use std::sync::{Condvar, Mutex, Wait};
use std::thread::sleep;
use std::time::{Clock, Duration};

/// How long a wait for sessions pauses between two glances, in milliseconds.
const GLANCE: u64 = 1;

/// After how many glances a wait for sessions gives up: two seconds.
const MOST_GLANCES: u32 = 2_000;

/// What became of a line.
#[derive(Drop)]
pub(crate) enum Reply {
    /// It was answered so.
    Answer(Bytes),
    /// The console wasn't asked, since this one holds the batch.
    Busy(Operator),
    /// The console has ended.
    Ended,
}

/// Where sessions hand in lines, and the console answers them one after another. Whoever waits here
/// waits for the console, and for nobody at a keyboard.
#[derive(Drop)]
pub struct Exchange {
    alloc: Global,
    board: Mutex<Board>,
    // told at each change of the board
    changed: Condvar,
    has_ended: AtomicBool,
    // how many sessions have a thread
    begun: AtomicU64,
}

impl Exchange {
    /// That of a console that begins.
    pub fn new(alloc: Global) -> Exchange {
        Exchange {
            alloc,
            board: Mutex::new(Board::new()),
            changed: Condvar::new(),
            has_ended: AtomicBool::new(false),
            begun: AtomicU64::new(0),
        }
    }

    /// What the console reads: the lines in the order in which they are taken.
    pub fn input<'a, R: Wait>(&'a self, rt: &'a R) -> ExchangeInput<'a, R> {
        ExchangeInput {
            rt,
            exchange: self,
            line: Bytes::new(self.alloc),
            at: 0,
        }
    }

    /// What the console writes to: what it writes of no line goes to this writer.
    pub fn output<'a, R: Wait, W: Write>(
        &'a self,
        rt: &'a R,
        beside: W,
    ) -> ExchangeOutput<'a, R, W> {
        ExchangeOutput {
            rt,
            exchange: self,
            beside,
        }
    }

    /// The name that the operator said whose line the console answers now, if he said one.
    pub fn typist<R: Wait>(&self, rt: &R) -> Option<Name> {
        self.board.lock(rt).typist()
    }

    /// Hands in a line, and waits for its answer: first until the lines before it are answered.
    pub(crate) fn ask<R: Wait>(&self, rt: &R, message: Message) -> Reply {
        let number = message.operator.number;
        let board = self.board.lock(rt);
        let mut board = self
            .changed
            .wait_while(rt, board, |board| !board.is_ready());
        match board.put(message) {
            Ruling::Put => {}
            Ruling::Busy(holder) => return Reply::Busy(holder),
            Ruling::Occupied | Ruling::Ended => return Reply::Ended,
        }
        self.changed.notify_all();
        let mut board = self
            .changed
            .wait_while(rt, board, |board| !board.has_answer());
        let answer = board.take_answer(number);
        self.changed.notify_all();
        match answer {
            Some(text) => Reply::Answer(text),
            None => Reply::Ended,
        }
    }

    // The line before has its whole answer, and the console waits for the next one.
    fn next_line<R: Wait>(&self, rt: &R) -> Option<Bytes> {
        let mut board = self.board.lock(rt);
        board.finish();
        self.changed.notify_all();
        let mut board = self
            .changed
            .wait_while(rt, board, |board| !board.has_line());
        board.take_line(self.alloc)
    }

    // Adds to the answer of the line that was taken last, if there is one.
    fn add<R: Wait>(&self, rt: &R, text: &[u8]) -> Result<bool, AllocError> {
        self.board.lock(rt).add(text)
    }

    /// The console has ended, and nobody waits here any more. What was answered to the line that
    /// was taken last, if that has had no whole answer.
    pub(crate) fn end<R: Wait>(&self, rt: &R) -> Option<Bytes> {
        self.has_ended.store(true, Ordering::SeqCst);
        let last = self.board.lock(rt).end();
        self.changed.notify_all();
        last
    }

    /// Whether the console has ended.
    pub(crate) fn has_ended(&self) -> bool {
        self.has_ended.load(Ordering::SeqCst)
    }

    /// Whether the batch is this session's.
    pub(crate) fn is_held_by<R: Wait>(&self, rt: &R, number: usize) -> bool {
        self.board.lock(rt).is_held_by(number)
    }

    /// A session has a thread.
    pub(crate) fn begin(&self) {
        self.begun.fetch_add(1, Ordering::SeqCst);
    }

    /// Waits until so many sessions have a thread. Where threads can't be made they have none, and
    /// the wait gives up after two seconds.
    pub(crate) fn have_begun<C: Clock>(&self, clock: &C, sessions: u64) -> bool {
        for _ in 0..MOST_GLANCES {
            if self.begun.load(Ordering::SeqCst) >= sessions {
                return true;
            }
            sleep(clock, Duration::from_millis(GLANCE));
        }
        false
    }
}

/// What the console reads. Before it waits for a line, the one before has its whole answer.
#[derive(Drop)]
pub struct ExchangeInput<'a, R: Wait> {
    rt: &'a R,
    exchange: &'a Exchange,
    line: Bytes,
    // how many bytes of the line were read
    at: usize,
}

impl<R: Wait> Read for ExchangeInput<'_, R> {
    ghost remaining = { λ input. None };

    fn read(&mut self, buf: &mut [u8]) -> io::Result<usize> {
        if self.at >= self.line.len() {
            let Some(line) = self.exchange.next_line(self.rt) else {
                return Ok(0);
            };
            self.line = line;
            self.at = 0;
        }
        let (_, mut rest) = self.line.as_slice().split_at(self.at.min(self.line.len()));
        let n = rest.read(buf)?;
        self.at = self.at.saturating_add(n);
        Ok(n)
    }
}

/// What the console writes to: the answer of the line that it took last. What it writes before the
/// first line goes elsewhere.
#[derive(Drop)]
pub struct ExchangeOutput<'a, R: Wait, W> {
    rt: &'a R,
    exchange: &'a Exchange,
    beside: W,
}

impl<R: Wait, W: Write> Write for ExchangeOutput<'_, R, W> {
    ghost contents = { λ output. None };

    fn write(&mut self, buf: &[u8]) -> io::Result<usize> {
        if self.exchange.add(self.rt, buf)? {
            return Ok(buf.len());
        }
        self.beside.write(buf)
    }

    fn flush(&mut self) -> io::Result<()> {
        self.beside.flush()
    }
}
