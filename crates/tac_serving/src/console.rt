//! The console's input.

ghost use Rattle.std.specs.Prelude.{[], Some};

use std::io::{self, Read};
use std::thread::sleep;
use std::time::{Clock, Duration};
use tac_net::Listeners;

/// What is said where a console has no lines, as where a unit gives none.
const ENDED_AT_ONCE: &str = "tacd: the console's input ended at once, so the server stops: give it \
    --console PATH, or --no-console";

/// What is typed at a console. Where it ends at once, standard error says so: it has no lines then,
/// as `/dev/null`, and the server stops.
#[derive(Drop)]
pub(crate) struct ConsoleInput<'a, R, I> {
    rt: &'a R,
    input: I,
    has_begun: bool,
}

impl<'a, R, I> ConsoleInput<'a, R, I> {
    pub(crate) fn new(rt: &'a R, input: I) -> ConsoleInput<'a, R, I> {
        ConsoleInput {
            rt,
            input,
            has_begun: false,
        }
    }
}

impl<R: Eprint, I: Read> Read for ConsoleInput<'_, R, I> {
    ghost remaining = { λ console. I.remaining console.input };

    fn read(&mut self, buf: &mut [u8]) -> io::Result<usize> {
        let n = self.input.read(buf)?;
        if n == 0 && !self.has_begun {
            // It doesn't matter whether this could be written.
            let _ = eprintln!(self.rt; "{ENDED_AT_ONCE}");
        }
        self.has_begun = true;
        Ok(n)
    }
}

/// How long a server without a console waits between two glances at its workers, in milliseconds.
const GLANCE: u64 = 250;

/// The input of a server without a console: no line comes. It ends once all workers have ended,
/// each after the connections that it was to serve.
#[derive(Drop)]
pub(crate) struct NoConsole<'a, H> {
    pub(crate) clock: &'a H,
    pub(crate) listeners: &'a Listeners,
}

impl<H: Clock> Read for NoConsole<'_, H> {
    ghost remaining = { λ console. Some [] };

    fn read(&mut self, _buf: &mut [u8]) -> io::Result<usize> {
        for _ in 0..u64::MAX {
            if self.listeners.is_left() {
                return Ok(0);
            }
            sleep(self.clock, Duration::from_millis(GLANCE));
        }
        Ok(0)
    }
}
