//! The run of the events: connections are opened and lost, bytes are handed in, and lines are said
//! at the console.

ghost use Rattle.std.specs.Prelude.{◌≡◌, List, ℕ};
ghost use Rattle.tac_server.specs.Server.{State};
ghost use Rattle.tac_server.specs.Kept as kept;
ghost use Rattle.tac_server.specs.Script.{Prints};
ghost use Rattle.tac_server.specs.Running.{Steps};
ghost use Rattle.tac_server.specs.declared.event.Event.TheVariants.{Open, Hand, Console};

use crate::event::{Event, read_event};
use crate::noticed::Noticed;
use crate::script_fault::{ScriptFault, Stop};
use crate::server::{Server, ServerFault};
use crate::shown::show;
use basics::Lines;
use std::alloc::Global;
use std::num::NonZeroUsize;
use tac_audit::Witness;
use tac_desk::Desk;

// A server as a script drives it.
struct Driver<D> {
    server: Server<D>,
    // bytes are handed in by pieces of this size; whole where there is none
    piece_size: Option<NonZeroUsize>,
}

// By hand, so that a proof of an owner has one call at each exit, not a drop of each field.
impl<D: Drop> Drop for Driver<D> {
    fn drop(self) {
        let Driver {
            server: _,
            piece_size: _,
        } = self;
    }
}

// What keeps the event of a line from being done.
fn stop_at(line: usize, fault: ServerFault) -> Stop
    ensures { result ≡ kept.stop_of line fault }
{
    match fault {
        ServerFault::NoConnection => Stop::at(line, ScriptFault::NoConnection),
        ServerFault::AlreadyOpen => Stop::at(line, ScriptFault::AlreadyOpen),
        ServerFault::Memory { .. } => Stop::Memory,
    }
}

// Hands bytes in piece by piece, until the connection closes.
fn hand_pieces<D: Desk, W: Witness<Noticed>>(
    server: &mut Server<D>,
    size: NonZeroUsize,
    conn: u32,
    bytes: &[u8],
    out: &mut Vec<u8>,
    witness: &mut W,
) -> Result<bool, ServerFault>
    ensures { (state : State) → kept.HasState D.meaning server.old state →
        kept.IsHeardUnlessMemory D.meaning out.old.items out.new.items server.new conn bytes.now
        state result }
{
    let mut rest = bytes;
    'pieces: loop {
        let (piece, next) = rest.split_at(size.get().min(rest.len()));
        let closes = server.feed_told(conn, piece, out, witness)?;
        if closes {
            return Ok(true);
        }
        if next.is_empty() {
            return Ok(false);
        }
        rest = next;
    }
}

impl<D: Desk> Driver<D> {
    // Hands bytes in, in pieces or whole.
    fn hand_in<W: Witness<Noticed>>(
        &mut self,
        conn: u32,
        bytes: &[u8],
        out: &mut Vec<u8>,
        witness: &mut W,
    ) -> Result<bool, ServerFault>
        ensures { (state : State) → kept.HasState D.meaning self.old.server state →
            kept.IsHeardUnlessMemory D.meaning out.old.items out.new.items self.new.server conn
            bytes.now state result }
    {
        match self.piece_size {
            Some(size) => hand_pieces(&mut self.server, size, conn, bytes, out, witness),
            None => self.server.feed_told(conn, bytes, out, witness),
        }
    }

    // Hands bytes in at a line, and shows what is sent.
    fn hand_and_show<W: Witness<Noticed>>(
        &mut self,
        alloc: Global,
        line: usize,
        number: u16,
        bytes: &[u8],
        out: &mut Vec<u8>,
        witness: &mut W,
    ) -> Result<(), Stop>
        ensures { (state : State) → kept.HasState D.meaning self.old.server state →
            kept.IsDoneUnless D.meaning line out.old.items out.new.items
            self.new.server state (Hand number bytes.now) result }
    {
        let mut sent = Vec::new(alloc);
        match self.hand_in(u32::from(number), bytes, &mut sent, witness) {
            Ok(closes) => {
                match show(
                    alloc,
                    self.server.key(),
                    number,
                    sent.as_slice(),
                    closes,
                    out,
                ) {
                    Ok(()) => Ok(()),
                    Err(_) => Err(Stop::Memory),
                }
            }
            Err(fault) => Err(stop_at(line, fault)),
        }
    }

    // Opens a connection at a line. The witness then knows that what it was told of the number is
    // of another connection; where it refuses that, nothing is different here.
    fn open<W: Witness<Noticed>>(
        &mut self,
        line: usize,
        number: u16,
        witness: &mut W,
    ) -> Result<(), Stop>
        ensures { (state : State) (text : List ℕ) →
            kept.HasState D.meaning self.old.server state →
            kept.IsDoneUnless D.meaning line text text self.new.server state (Open number) result }
    {
        match self.server.open(u32::from(number)) {
            Ok(()) => {
                let _ = witness.tell(&Noticed::Opened(u32::from(number)));
                Ok(())
            }
            Err(fault) => Err(stop_at(line, fault)),
        }
    }

    // Says a line at the console, and shows the answer.
    fn tell(&mut self, line: &[u8], out: &mut Vec<u8>) -> Result<(), Stop>
        ensures { (number : ℕ) (state : State) → kept.HasState D.meaning self.old.server state →
            kept.IsDoneUnless D.meaning number out.old.items out.new.items self.new.server state
            (Console line.now) result }
    {
        match self.server.console(line, out) {
            Ok(()) => Ok(()),
            Err(_) => Err(Stop::Memory),
        }
    }

    // Does what a line asks for.
    fn do_event<W: Witness<Noticed>>(
        &mut self,
        alloc: Global,
        line: usize,
        event: Event,
        out: &mut Vec<u8>,
        witness: &mut W,
    ) -> Result<(), Stop>
        ensures { (state : State) → kept.HasState D.meaning self.old.server state →
            kept.IsDoneUnless D.meaning line out.old.items out.new.items
            self.new.server state event result }
    {
        match event {
            Event::Open(number) => self.open(line, number, witness),
            Event::Hand(number, bytes) => {
                self.hand_and_show(alloc, line, number, bytes.as_slice(), out, witness)
            }
            Event::Pieces(size) => {
                self.piece_size = NonZeroUsize::new(size);
                Ok(())
            }
            Event::Lost(number) => {
                self.server.lost(u32::from(number));
                Ok(())
            }
            Event::Console(text) => self.tell(text.as_slice(), out),
        }
    }
}

/// Runs the lines after `run` on a server, and adds what that prints. The witness is told which
/// connections are opened, and of the packets on them.
pub(crate) fn run_events<D: Desk, W: Witness<Noticed>>(
    alloc: Global,
    server: Server<D>,
    lines: &mut Lines<'_>,
    out: &mut Vec<u8>,
    witness: &mut W,
) -> Result<(), Stop>
    ensures { (state : State) → kept.HasState D.meaning server state →
        Prints out.old.items out.new.items result
        (Steps state lines.old.number lines.old.lines) }
{
    let mut driver = Driver {
        server,
        piece_size: None,
    };
    'events: while let Some((number, line)) = lines.take_line() {
        let Some(event) = read_event(alloc, driver.server.key(), line)? else {
            return Err(Stop::at(number, ScriptFault::BadCommand));
        };
        driver.do_event(alloc, number, event, out, witness)?;
    }
    Ok(())
}
