//! A client's end of a connection.

use crate::body::{acct_body, author_body, continue_body, start_body};
use crate::fault::AskFault;
use crate::judging::reply_to;
use crate::login::{Login, Method};
use crate::packet::packet;
use crate::reply::ReplyFields;
use crate::turn::{Typing, typing_for};
use basics::{Bytes, send};
use std::alloc::Global;
use std::io::{self, ErrorKind, Read, Write};
use tac_authen::{Continue, Start};
use tac_request::AuthorRequest;
use tac_wire::{Door, Frame, Framer, Header, Next, PacketType};

/// The longest body that is sent: that of a CONTINUE with the longest fields.
const BODY_MAX: usize = 131_075;

/// How much is read at once.
const CHUNK: usize = 4096;

/// The version byte of what isn't a login by PAP or CHAP.
const VERSION: u8 = 0xc0;

/// What a server is asked.
#[derive(Drop)]
pub enum Asked {
    /// Whether a user may log in.
    Login { start: Start, login: Login },
    /// What a user may do, or is given.
    Authorisation(AuthorRequest),
    /// Whether a record with these flags is taken.
    Accounting { flags: u8, request: AuthorRequest },
}

impl Asked {
    /// The type of its packets.
    pub fn kind(&self) -> PacketType {
        match self {
            Asked::Login { .. } => PacketType::AUTHENTICATION,
            Asked::Authorisation(_) => PacketType::AUTHORISATION,
            Asked::Accounting { .. } => PacketType::ACCOUNTING,
        }
    }
}

/// A client's end of a connection: what it reads and what it writes. Both have to end in time by
/// themselves.
#[derive(Drop)]
pub struct Client<R, W> {
    alloc: Global,
    door: Door,
    framer: Framer,
    reader: R,
    writer: W,
    // whether a byte came since something was sent
    has_begun: bool,
}

// The header of a session's first packet. The length is written as it is sent.
fn first_header(version: u8, kind: PacketType, session: u32) -> Header {
    Header {
        version,
        kind,
        seq: 1,
        flags: 0,
        session,
        length: 0,
    }
}

// Why nothing was read, unless it can be tried again.
fn unread(error: &io::Error) -> Result<(), AskFault> {
    match error.kind() {
        ErrorKind::Interrupted => Ok(()),
        ErrorKind::WouldBlock | ErrorKind::TimedOut => Err(AskFault::Silent),
        ErrorKind::ConnectionReset => Err(AskFault::Closed),
        ErrorKind::OutOfMemory => Err(AskFault::Memory),
        _ => Err(AskFault::Broken),
    }
}

impl<R: Read, W: Write> Client<R, W> {
    /// An end whose packets travel by this door. Takes no memory.
    pub fn new(alloc: Global, door: Door, reader: R, writer: W) -> Client<R, W> {
        Client {
            alloc,
            door,
            framer: Framer::new(alloc),
            reader,
            writer,
            has_begun: false,
        }
    }

    fn send(&mut self, header: &Header, body: &[u8]) -> Result<(), AskFault> {
        if body.len() > BODY_MAX {
            return Err(AskFault::Unsendable);
        }
        let packet = packet(self.alloc, &self.door, header, body)?;
        let (_, sent) = send(&mut self.writer, packet.as_slice());
        self.has_begun = false;
        match sent {
            Ok(()) => Ok(()),
            Err(_) => Err(AskFault::Unsent),
        }
    }

    // Where the connection was closed.
    fn ended(&self) -> AskFault {
        if self.has_begun {
            AskFault::CutOff
        } else {
            AskFault::Closed
        }
    }

    // Reads once.
    fn read_on(&mut self) -> Result<(), AskFault> {
        let mut chunk = [0; CHUNK];
        let n = match self.reader.read(&mut chunk) {
            Ok(n) => n,
            Err(error) => return unread(&error),
        };
        if n == 0 {
            return Err(self.ended());
        }
        self.framer.feed(&chunk[..n])?;
        self.has_begun = true;
        Ok(())
    }

    // Reads until a whole packet is there. A header is judged as soon as it is, so no more is kept
    // than the longest packet and one read.
    fn receive(&mut self) -> Result<Frame, AskFault> {
        for _ in 0..u64::MAX {
            match self.framer.next(&self.door)? {
                Next::Packet(frame) => return Ok(frame),
                Next::Need => {}
                Next::Fault(refused) => return Err(AskFault::from(refused.fault)),
                Next::Ended => return Err(AskFault::Closed),
            }
            self.read_on()?;
        }
        Err(AskFault::Silent)
    }

    // Sends a packet, and takes the reply to it.
    fn exchange(&mut self, header: &Header, body: &[u8]) -> Result<ReplyFields, AskFault> {
        self.send(header, body)?;
        let frame = self.receive()?;
        reply_to(self.alloc, &self.door, header, frame)
    }

    // Answers a question.
    fn type_text(&mut self, header: &Header, text: &[u8]) -> Result<ReplyFields, AskFault> {
        let answer = Continue {
            user_msg: Bytes::from_slice(self.alloc, text)?,
            extra: Bytes::new(self.alloc),
            flags: 0,
        };
        let body = continue_body(self.alloc, &answer)?;
        self.exchange(header, body.as_slice())
    }

    // A login: by ASCII the server asks for the password, and may ask for the name.
    fn log_in(
        &mut self,
        session: u32,
        start: &Start,
        login: &Login,
    ) -> Result<ReplyFields, AskFault> {
        let mut header = first_header(login.method.version(), PacketType::AUTHENTICATION, session);
        let body = start_body(self.alloc, start)?;
        let mut reply = self.exchange(&header, body.as_slice())?;
        let mut has_named = !matches!(login.method, Method::Ascii);
        let mut has_typed = has_named;
        for seq in [3u8, 5] {
            let Some(typing) = typing_for(reply.status, has_named, has_typed) else {
                return Ok(reply);
            };
            header.seq = seq;
            reply = match typing {
                Typing::Name => {
                    has_named = true;
                    self.type_text(&header, start.user.as_slice())?
                }
                Typing::Password => {
                    has_typed = true;
                    self.type_text(&header, login.password.as_slice())?
                }
            };
        }
        Ok(reply)
    }

    /// Asks in a session of this number, and takes the answer: the last reply. A server that asks
    /// for what isn't there, as a new password, is answered nothing, and its question is the
    /// answer.
    pub fn ask(&mut self, session: u32, asked: &Asked) -> Result<ReplyFields, AskFault> {
        match asked {
            Asked::Login { start, login } => self.log_in(session, start, login),
            Asked::Authorisation(request) => {
                let header = first_header(VERSION, PacketType::AUTHORISATION, session);
                let body = author_body(self.alloc, request)?;
                self.exchange(&header, body.as_slice())
            }
            Asked::Accounting { flags, request } => {
                let header = first_header(VERSION, PacketType::ACCOUNTING, session);
                let body = acct_body(self.alloc, *flags, request)?;
                self.exchange(&header, body.as_slice())
            }
        }
    }
}
