//! One operator at the socket: his lines, and what each of them is answered.

use crate::attending::OPERATORS;
use crate::board::{Message, Operator};
use crate::exchange::{Exchange, Reply};
use crate::lines::Begun;
use crate::part::Part;
use crate::patience::Patience;
use crate::status::Status;
use basics::{Bytes, split_once};
use pol_names::Name;
use std::alloc::AllocError;
use std::io::{ErrorKind, Read, Write};
use std::os::unix::net::UnixStream;
use std::sync::Wait;
use std::sync::atomic::{AtomicU64, Ordering};
use std::time::{Clock, Duration};

/// How many bytes are read at once.
const CHUNK: usize = 4096;

/// How long a read or a write waits until the session looks about, in milliseconds.
const GLANCE: u64 = 250;

/// For how long an operator may take nothing of an answer, in seconds.
const TAKES: u64 = 10;

/// What the line `help` is answered.
const HELP: &[u8] = b"policy | shadow | reach SUBJECT | why NAME LINE | given NAME S
tally SUBJECT | records
add SUBJECT [in GROUP] | remove SUBJECT | move SUBJECT in GROUP | move SUBJECT out
login NAME TEXT | enable NAME TEXT | clear login NAME | clear enable NAME
login-hash NAME HASH | enable-hash NAME HASH
priv SUBJECT N | clear priv SUBJECT
service SUBJECT S [ATTRIBUTE] | refuse SUBJECT S | clear service SUBJECT S [ATTRIBUTE]
insert SUBJECT N permit PATTERN | insert SUBJECT N deny PATTERN
drop SUBJECT N | shift SUBJECT N M
begin | commit | abandon   edits between them are made all or none
reload                     the policy's file is read again
reload devices             the devices' file is read again
rotate                     ends the present segment of the history
operator NAME              who types, which others are told
status                     how the server is, as Prometheus reads it
quit                       the server stops
A SUBJECT is 'user NAME' or 'group NAME', and S, a service, is 'NAME' or 'NAME/PROTOCOL'.
An edit counts from the next packet on. 'tacd serve --help' says more.
";

/// What the first block of a session is.
const READY: &[u8] = b"ready\n";

/// What it is where as many operators are there as may be.
const BUSY: &[u8] = b"busy\n";

/// What a line is answered that is none of a console.
const BAD_LINE: &[u8] = b"refused 1 BadEdit\n";

/// What a line is answered for which there is no memory.
const NO_MEMORY: &[u8] = b"refused 12 Memory\n";

/// How it goes on after a line.
#[derive(Clone, Copy, PartialEq, Eq)]
enum Went {
    /// The next line may come.
    On,
    /// The session ends.
    Ends,
    /// The line stops the server, and is answered at its end.
    Quits,
}

/// What came of a read.
enum Came {
    Piece(usize),
    Nothing,
    End,
}

/// One operator at the socket.
#[derive(Drop)]
pub(crate) struct Session<'a, R, S> {
    rt: &'a R,
    exchange: &'a Exchange,
    status: &'a S,
    // how many operators there are
    present: &'a AtomicU64,
    stream: &'a UnixStream,
    patience: Patience,
    operator: Operator,
    begun: Begun,
    // when he last typed a line
    heard: Duration,
}

// A line of the console, with its LF.
fn message<R: AllocGlobal>(
    rt: &R,
    operator: Operator,
    part: Part,
    line: &[u8],
) -> Result<Message, AllocError> {
    let mut text = Bytes::from_slice(rt.alloc(), line)?;
    text.extend_from_slice(b"\n")?;
    Ok(Message {
        operator,
        part,
        text,
    })
}

/// Lets reads and writes of an operator's stream end soon. It doesn't matter where that fails: they
/// wait for him then.
pub(crate) fn wait_briefly(stream: &UnixStream) {
    let glance = Some(Duration::from_millis(GLANCE));
    let _ = stream.set_read_timeout(glance);
    let _ = stream.set_write_timeout(glance);
}

/// Tells an operator that as many are there as may be.
pub(crate) fn turn_away(stream: &UnixStream) {
    let mut writer = stream;
    let _ = writer.write(BUSY);
    let _ = writer.write(b"\n");
}

impl<'a, R: Wait + Clock + AllocGlobal, S: Status> Session<'a, R, S> {
    /// That of an operator who comes in, with what tells how the server is and how many of them
    /// there are. No other session has this number.
    pub(crate) fn new(
        rt: &'a R,
        exchange: &'a Exchange,
        (status, present): (&'a S, &'a AtomicU64),
        stream: &'a UnixStream,
        patience: Patience,
        number: usize,
    ) -> Session<'a, R, S> {
        let operator = Operator { number, name: None };
        Session {
            rt,
            exchange,
            status,
            present,
            stream,
            patience,
            operator,
            begun: Begun::new(rt.alloc()),
            heard: rt.monotonic().unwrap_or(Duration::ZERO),
        }
    }

    // A clock that can't be read stands still.
    fn now(&self) -> Duration {
        self.rt.monotonic().unwrap_or(Duration::ZERO)
    }

    // How long ago that was.
    fn since(&self, then: Duration) -> Duration {
        self.now().saturating_sub(then)
    }

    // Whether the operator has been silent for too long, or the console has ended.
    fn is_over(&self) -> bool {
        let most = if self.exchange.is_held_by(self.rt, self.operator.number) {
            self.patience.holding
        } else {
            self.patience.idle
        };
        self.exchange.has_ended() || self.since(self.heard) >= most
    }

    fn read(&self, chunk: &mut [u8]) -> Came {
        let mut reader = self.stream;
        match reader.read(chunk) {
            Ok(0) => Came::End,
            Ok(n) => Came::Piece(n),
            Err(error) => match error.kind() {
                ErrorKind::WouldBlock | ErrorKind::TimedOut | ErrorKind::Interrupted => {
                    Came::Nothing
                }
                _ => Came::End,
            },
        }
    }

    // Whether the operator took all of a text, before the console ended.
    fn write(&self, text: &[u8]) -> bool {
        let mut rest = text;
        let mut taken = self.now();
        for _ in 0..u64::MAX {
            if rest.is_empty() {
                return true;
            }
            let mut writer = self.stream;
            match writer.write(rest) {
                Ok(0) => return false,
                Ok(n) => {
                    (_, rest) = rest.split_at(n);
                    taken = self.now();
                }
                Err(error) => match error.kind() {
                    ErrorKind::WouldBlock | ErrorKind::TimedOut | ErrorKind::Interrupted => {}
                    _ => return false,
                },
            }
            if self.exchange.has_ended() || self.since(taken) >= Duration::from_secs(TAKES) {
                return rest.is_empty();
            }
        }
        false
    }

    // Tells an answer, and the empty line after it.
    fn tell(&self, answer: &[u8]) -> Went {
        if self.write(answer) && self.write(b"\n") {
            Went::On
        } else {
            Went::Ends
        }
    }

    // Tells who holds the batch.
    fn tell_busy(&self, holder: Operator) -> Went {
        let name = match &holder.name {
            Some(name) => name.as_slice(),
            None => b"another".as_slice(),
        };
        if self.write(b"busy ") && self.write(name) && self.write(b"\n\n") {
            Went::On
        } else {
            Went::Ends
        }
    }

    // The operator says his name.
    fn name(&mut self, text: &[u8]) -> Went {
        match Name::read(text) {
            Some(name) => {
                self.operator.name = Some(name);
                self.tell(b"ok\n")
            }
            None => self.tell(BAD_LINE),
        }
    }

    // Tells how the server is. The console isn't asked: it may be building a policy.
    fn tell_status(&self) -> Went {
        // one who is turned away is none of them
        let operators = self.present.load(Ordering::SeqCst).min(OPERATORS);
        match self.status.text(self.rt.alloc(), operators) {
            Ok(text) => self.tell(text.as_slice()),
            Err(_) => self.tell(NO_MEMORY),
        }
    }

    // Asks the console.
    fn ask(&self, part: Part, line: &[u8]) -> Went {
        let Ok(message) = message(self.rt, self.operator, part, line) else {
            return self.tell(NO_MEMORY);
        };
        match self.exchange.ask(self.rt, message) {
            Reply::Answer(text) => self.tell(text.as_slice()),
            Reply::Busy(holder) => self.tell_busy(holder),
            Reply::Ended => Went::Ends,
        }
    }

    // Answers a line.
    fn answer(&mut self, line: &[u8]) -> Went {
        if line == b"help".as_slice() {
            return self.tell(HELP);
        }
        if line == b"status".as_slice() {
            return self.tell_status();
        }
        if let Some(name) = line.strip_prefix(b"operator ".as_slice()) {
            return self.name(name);
        }
        if line == b"quit".as_slice() {
            return match self.ask(Part::Beside, line) {
                Went::Ends => Went::Quits,
                went => went,
            };
        }
        match Part::of(self.rt.alloc(), line) {
            Ok(part) => self.ask(part, line),
            Err(_) => self.tell(NO_MEMORY),
        }
    }

    // Answers the line that was begun and now is whole.
    fn answer_begun(&mut self) -> Went {
        let went = match self.begun.take(self.rt.alloc()) {
            Some(line) => self.answer(line.as_slice()),
            None => self.tell(BAD_LINE),
        };
        self.heard = self.now();
        went
    }

    // Answers the lines that end in a piece.
    fn take(&mut self, piece: &[u8]) -> Went {
        let mut rest = piece;
        'lines: while let Some((front, after)) = split_once(rest, b'\n') {
            if self.begun.add(self.rt.alloc(), front).is_err() {
                return Went::Ends;
            }
            let went = self.answer_begun();
            if went != Went::On {
                return went;
            }
            rest = after;
        }
        match self.begun.add(self.rt.alloc(), rest) {
            Ok(()) => Went::On,
            Err(_) => Went::Ends,
        }
    }

    // Answers lines until the session ends. Whether the last one stops the server.
    fn listen(&mut self) -> bool {
        if self.tell(READY) != Went::On {
            return false;
        }
        let mut chunk = [0; CHUNK];
        'reads: for _ in self.rt.forever() {
            let went = match self.read(&mut chunk) {
                Came::Piece(n) => self.take(chunk.split_at(n.min(CHUNK)).0),
                Came::Nothing => Went::On,
                Came::End => Went::Ends,
            };
            match went {
                Went::Quits => return true,
                Went::Ends => return false,
                Went::On => {}
            }
            if self.is_over() {
                return false;
            }
        }
        unreachable!()
    }

    /// Answers lines until the session ends, and drops its batch then. A line that isn't whole by
    /// then is dropped too. The result is whether the last line stops the server.
    pub(crate) fn serve(&mut self) -> bool {
        let Ok(parting) = message(self.rt, self.operator, Part::Ends, b"abandon") else {
            return false;
        };
        let quits = self.listen();
        if self.exchange.is_held_by(self.rt, self.operator.number) {
            // he may have said his name since
            let Message { part, text, .. } = parting;
            let parting = Message {
                operator: self.operator,
                part,
                text,
            };
            // what it is answered is for nobody
            let _ = self.exchange.ask(self.rt, parting);
        }
        quits
    }
}
