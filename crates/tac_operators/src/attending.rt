//! Operators, each in a thread, and the console that answers them.

use crate::console_socket::{ConsoleHost, ConsoleSocket};
use crate::exchange::Exchange;
use crate::patience::Patience;
use crate::session::{Session, turn_away, wait_briefly};
use crate::status::Status;
use basics::Bytes;
use std::alloc::AllocError;
use std::io::Write;
use std::os::unix::net::UnixStream;
use std::sync::Wait;
use std::sync::atomic::{AtomicU64, Ordering};
use std::thread::{Threads, join_mut, map_indices, sleep};
use std::time::{Clock, Duration};

/// How many operators there may be at once.
pub(crate) const OPERATORS: u64 = 8;

/// How many threads take them in: one more, which turns away who is one too many.
const THREADS: usize = 9;

/// How long a thread waits where no operator could be taken in, in milliseconds.
const PAUSE: u64 = 250;

/// Who stopped the server, and hears of its end.
#[derive(Drop)]
pub struct Parting {
    streams: Vec<Option<UnixStream>>,
    answer: Bytes,
}

impl Parting {
    /// Answers the line `quit`, where it ended well by `ok`. The streams end once this is dropped.
    pub fn tell(&self, ended_well: bool) {
        let answer = if self.answer.is_empty() && ended_well {
            b"ok\n".as_slice()
        } else {
            self.answer.as_slice()
        };
        if answer.is_empty() {
            return;
        }
        for stream in self.streams.iter() {
            if let Some(stream) = stream {
                let mut writer = stream;
                let _ = writer.write(answer);
                let _ = writer.write(b"\n");
            }
        }
    }
}

// Serves an operator, unless there are too many. Whether he stops the server.
fn receive<R: Wait + Clock + AllocGlobal, S: Status>(
    rt: &R,
    exchange: &Exchange,
    status: &S,
    present: &AtomicU64,
    patience: Patience,
    number: usize,
    stream: &UnixStream,
) -> bool {
    wait_briefly(stream);
    let quits = if present.fetch_add(1, Ordering::SeqCst) < OPERATORS {
        Session::new(rt, exchange, (status, present), stream, patience, number).serve()
    } else {
        turn_away(stream);
        false
    };
    present.fetch_sub(1, Ordering::SeqCst);
    quits
}

// Serves one operator after another, until the console ends. The stream of who stopped it.
fn receive_all<R: Wait + Clock + AllocGlobal, S: Status>(
    rt: &R,
    socket: &ConsoleSocket<'_>,
    exchange: &Exchange,
    status: &S,
    present: &AtomicU64,
    patience: Patience,
    number: usize,
) -> Option<UnixStream> {
    exchange.begin();
    'operators: for _ in rt.forever() {
        let came = socket.accept();
        if exchange.has_ended() {
            return None;
        }
        match came {
            Ok(stream) => {
                if receive(rt, exchange, status, present, patience, number, &stream) {
                    return Some(stream);
                }
            }
            Err(_) => sleep(rt, Duration::from_millis(PAUSE)),
        }
    }
    unreachable!()
}

/// Lets operators in at a socket, and runs the console that answers them in this thread: it reads the
/// exchange's input and writes to its output. They come and go while it runs, eight at a time, and
/// their lines are its input in the order in which they are taken, but for those that a session
/// answers by itself: of these `status` is answered by what is handed in. Once it has ended the
/// socket is closed, and nobody waits for an operator. No console is run, and its end is none, where
/// a thread can't be made.
pub fn attend<R, S: Status + Sync, F: FnMut() -> T, T>(
    rt: &R,
    socket: &ConsoleSocket<'_>,
    exchange: &Exchange,
    status: &S,
    patience: Patience,
    console: &mut F,
) -> (Option<T>, Parting)
where
    R: Threads + Wait + Clock + Sync + AllocGlobal + ConsoleHost,
    requires { F.pre console.old }
{
    let present = AtomicU64::new(0);
    let present = &present;
    let mut receiving = || -> Result<Vec<Option<UnixStream>>, AllocError> {
        let receive = |number: usize| -> Option<UnixStream> {
            receive_all(rt, socket, exchange, status, present, patience, number)
        };
        map_indices(rt, rt.alloc(), THREADS, &receive)
    };
    let mut operating = || -> (Option<T>, Option<Bytes>)
        requires { F.pre console.now }
    {
        let end = if exchange.have_begun(rt, THREADS as u64) {
            Some(console())
        } else {
            None
        };
        let answer = exchange.end(rt);
        socket.close(rt);
        (end, answer)
    };
    let (received, (end, answer)) = join_mut(rt, &mut receiving, &mut operating);
    let parting = Parting {
        streams: received.unwrap_or(Vec::new(rt.alloc())),
        answer: answer.unwrap_or(Bytes::new(rt.alloc())),
    };
    (end, parting)
}
