//! The console's part of a server: its first line, the operator's lines, and the end.

ghost use Rattle.std.specs.Prelude.{IfSome, IsSome};
ghost use Rattle.tac_hall_console.specs.Operated.{IsOperated};
ghost use Rattle.tac_net.specs.Opening.{listening};
ghost use Rattle.tac_net.specs.Program as program;

use crate::fault::ServeFault;
use crate::hashing::work_passwords_out;
use crate::lent::Lent;
use crate::opening::announce;
use crate::premises::Premises;
use std::io::{Read, Write};
use std::sync::Wait;
use std::thread::{Threads, join_mut};
use std::time::Clock;
use tac_audit::Nobody;
use tac_desk::Desk;
use tac_hall::{Run, Seat};
use tac_hall_console::{OperatorFault, Source, operate};
use tac_journal::{ConsoleLog, Log, LogFiles, LogWriter, Typists};

// Operates the console. The log of the server, if one is kept, is told of each line before it is
// answered.
fn operate_logged<R, J: Run, D: Desk, L: Log, S: Source + Typists, I: Read, O: Write>(
    premises: &Premises<'_, R, J, D, L>,
    source: &S,
    console: Seat<J>,
    input: &mut I,
    output: &mut O,
) -> (Seat<J>, Result<(), OperatorFault>)
where
    R: Wait + Clock + AllocGlobal + Eprint + LogFiles,
    ensures { IsOperated J.opening result.1 (λ typings. Unit {0}) console result.0
        (I.remaining input.old) (I.remaining input.new)
        (O.contents output.old) (O.contents output.new) }
{
    let rt = premises.rt;
    let desk = premises.desk;
    if premises.log.is_kept() {
        let log = LogWriter::new(rt, premises.log);
        let mut witness = ConsoleLog::new(rt.alloc(), rt, source, log);
        return operate(rt, desk, source, console, &mut witness, input, output);
    }
    operate(rt, desk, source, console, &mut Nobody, input, output)
}

// Once each worker has a thread, the first line is printed, and then the console is operated.
fn open_console<R, J: Run, D: Desk, L: Log, S: Source + Typists, I: Read, O: Write>(
    premises: &Premises<'_, R, J, D, L>,
    source: &S,
    console: Seat<J>,
    input: &mut I,
    output: &mut O,
) -> Result<(Seat<J>, Result<(), OperatorFault>), ServeFault>
where
    R: Wait + Clock + AllocGlobal + Eprint + LogFiles,
    ensures { program.Attends result (listening premises.now.settings.now) J.opening console
        (I.remaining input.old) (I.remaining input.new)
        (O.contents output.old) (O.contents output.new) }
{
    let rt = premises.rt;
    if !premises.vigil.have_begun(rt, premises.settings.threads()) {
        return Err(ServeFault::Threads);
    }
    announce(rt.alloc(), output, premises.settings)?;
    Ok(operate_logged(premises, source, console, input, output))
}

// The console's part, from its first line to its last. Then all other threads are told to end,
// whatever they wait for. Nothing is read and no line printed where one has not begun.
fn attend_alone<R, J: Run, D: Desk, L: Log, S: Source + Typists, I: Read, O: Write>(
    premises: &Premises<'_, R, J, D, L>,
    source: &S,
    console: Seat<J>,
    input: &mut I,
    output: &mut O,
) -> Result<(Seat<J>, Result<(), OperatorFault>), ServeFault>
where
    R: Wait + Clock + AllocGlobal + Eprint + LogFiles,
    ensures { program.Attends result (listening premises.now.settings.now) J.opening console
        (I.remaining input.old) (I.remaining input.new)
        (O.contents output.old) (O.contents output.new) }
{
    let attended = open_console(premises, source, console, input, output);
    premises.vigil.stop();
    premises.hashing.end(premises.rt);
    premises.intake.wake_all();
    premises.listeners.close();
    attended
}

/// The console's part, with a seat that is lent, while threads beside it work passwords out. Once
/// the console has ended, all other threads are told to end.
pub(crate) fn attend<R, J: Run, D: Desk, L: Log, S: Source + Typists, C, I: Read, O: Write>(
    premises: &Premises<'_, R, J, D, L>,
    source: &S,
    console: &mut C,
    input: &mut I,
    output: &mut O,
) -> Result<(Seat<J>, Result<(), OperatorFault>), ServeFault>
where
    R: Threads + Wait + Clock + Sync + AllocGlobal + Eprint + LogFiles,
    C: Lent<Item = Seat<J>>,
    requires { IsSome (C.item console.old) }
    ensures { IfSome (C.item console.old) (λ seat.
        program.Attends result (listening premises.now.settings.now) J.opening seat
        (I.remaining input.old) (I.remaining input.new)
        (O.contents output.old) (O.contents output.new)) }
{
    let Premises {
        rt,
        settings,
        vigil,
        intake,
        hashing,
        ..
    } = *premises;
    let hashers = settings.hashers;
    let mut working = || work_passwords_out(rt, hashing, intake, vigil, hashers);
    let mut attending = || -> Result<(Seat<J>, Result<(), OperatorFault>), ServeFault>
        requires { IsSome (C.item console.now) }
        ensures { IfSome (C.item console.entry.now) (λ seat.
            program.Attends result (listening premises.entry.now.settings.now) J.opening seat
            (I.remaining input.entry.now) (I.remaining input.exit.now)
            (O.contents output.entry.now) (O.contents output.exit.now)) }
    {
        match console.take_item() {
            Some(seat) => attend_alone(premises, source, seat, input, output),
            None => unreachable!(),
        }
    };
    let (_, attended) = join_mut(rt, &mut working, &mut attending);
    attended
}
