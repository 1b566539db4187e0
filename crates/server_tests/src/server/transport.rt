//! A replay with a reader that gives little at a time or fails, and with writers that take little or
//! fail.

use packet_notation::push_digits;
use std::alloc::{AllocError, Global};
use std::io::{self, ErrorKind, Read, Write};
use std::process::Abort;
use std::test::Fail;
use tac_server::{ReplayEnd, ReplayFault, replay};

/// Bob asks for a line, and for two on a single connection; he begins two logins there, and ends the
/// second before the first. Then a line is no event.
const SCRIPT: &str = "key k
group ops
permit show .*
user bob in ops
login secret
run
open 1
packet 1 c0020100.00000001.00000036.06010101030400030d080f'bobtty0service=shellcmd=showcmd-arg=version'
open 1
packet 1 c0020104.00000001.00000036.06010101030400030d080f'bobtty0service=shellcmd=showcmd-arg=version' c0020104.00000002.00000036.06010101030400030d080f'bobtty0service=shellcmd=showcmd-arg=version'
packet 1 c0010104.00000003.0000000b.0101010103000000'bob'
packet 1 c0010104.00000004.0000000b.0101010103000000'bob'
packet 1 c0010304.00000004.0000000b.0006000000'secret'
packet 1 c0010304.00000003.0000000b.0006000000'secret'
close 1
";

const OUTPUT: &str = "reply 1 c0020200.00000001.00000006.010000000000
closed 1
reply 1 c0020204.00000001.00000006.010000000000
reply 1 c0020204.00000002.00000006.010000000000
reply 1 c0010204.00000003.00000010.0501000a0000'Password: '
reply 1 c0010204.00000004.00000010.0501000a0000'Password: '
reply 1 c0010404.00000004.00000006.010000000000
reply 1 c0010404.00000003.00000006.010000000000
fault line 15 BadCommand
";

// The text as a script or its output has it: its lines of packets are in the notation of
// `packet_notation`.
fn spelled(alloc: Global, text: &str) -> Result<String, AllocError> {
    let mut whole = String::new(alloc);
    for line in text.lines() {
        if line.starts_with("packet ") || line.starts_with("reply ") {
            push_digits(&mut whole, line)?;
        } else {
            whole.push_str(line)?;
        }
        whole.push('\n')?;
    }
    Ok(whole)
}

/// Gives one byte a call, and is interrupted before each; fails where the bytes end, if it is to.
#[derive(Drop)]
struct Trickle<'a> {
    rest: &'a [u8],
    is_interrupted: bool,
    fails: bool,
}

impl Read for Trickle<'_> {
    fn read(&mut self, buf: &mut [u8]) -> io::Result<usize> {
        self.is_interrupted = !self.is_interrupted;
        if self.is_interrupted {
            return Err(io::Error::from(ErrorKind::Interrupted));
        }
        let Some((first, rest)) = self.rest.split_first() else {
            if self.fails {
                return Err(io::Error::from(ErrorKind::Other));
            }
            return Ok(0);
        };
        if buf.is_empty() {
            return Ok(0);
        }
        buf[0] = *first;
        self.rest = rest;
        Ok(1)
    }
}

/// Takes one byte a call, and is interrupted before each; fails when it has as many as it takes.
#[derive(Drop)]
struct Narrow {
    taken: Vec<u8>,
    room: usize,
    is_interrupted: bool,
}

impl Write for Narrow {
    fn write(&mut self, buf: &[u8]) -> io::Result<usize> {
        self.is_interrupted = !self.is_interrupted;
        if self.is_interrupted {
            return Err(io::Error::from(ErrorKind::Interrupted));
        }
        if self.taken.len() >= self.room {
            return Err(io::Error::from(ErrorKind::StorageFull));
        }
        let Some(first) = buf.first() else {
            return Ok(0);
        };
        self.taken.push(*first)?;
        Ok(1)
    }

    fn flush(&mut self) -> io::Result<()> {
        Ok(())
    }
}

// The script comes a byte at a time, and at its end the reader fails or not; with room for so many
// bytes this is written, and the replay ends so.
fn trickles<R: Abort + AllocGlobal>(
    rt: &R,
    script: &[u8],
    fails: bool,
    room: usize,
    written: &[u8],
    end: Result<ReplayEnd, ReplayFault>,
) {
    let mut reader = Trickle {
        rest: script,
        is_interrupted: false,
        fails,
    };
    let mut writer = Narrow {
        taken: Vec::new(rt.alloc()),
        room,
        is_interrupted: false,
    };
    let ended = replay(rt.alloc(), &mut reader, &mut writer);
    let is_so = ended == end && writer.taken.as_slice() == written;
    assert!(rt; is_so, "with room for {room} {ended:?}");
}

#[test]
fn a_byte_at_a_time(rt: HostRuntime) -> Result<(), Fail> {
    let script = spelled(rt.alloc(), SCRIPT)?;
    let script = script.as_bytes();
    let output = spelled(rt.alloc(), OUTPUT)?;
    let output = output.as_bytes();
    trickles(
        &rt,
        script,
        false,
        usize::MAX,
        output,
        Ok(ReplayEnd::Refused),
    );
    trickles(
        &rt,
        script,
        true,
        usize::MAX,
        b"",
        Err(ReplayFault::ReadFault),
    );
    for room in 0..output.len() {
        let beginning = &output[..room];
        trickles(
            &rt,
            script,
            false,
            room,
            beginning,
            Err(ReplayFault::WriteFault),
        );
    }
    Ok(())
}
