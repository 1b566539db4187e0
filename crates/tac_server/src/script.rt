//! The run of a script: key, policy, and then the events.

ghost use Rattle.std.specs.Prelude.{◌≡◌, ◌+◌, length, true, false, None, Some, MatchOption};
ghost use Rattle.std.specs.List.{list_any};
ghost use Rattle.basics.specs.Lines.{lines_of};
ghost use Rattle.pol_text.specs.Text.{text_of_lines};
ghost use Rattle.tac_server.specs.Script.{Prints, TextRuns, BodyRuns, LinesRun};
ghost use Rattle.tac_server.specs.Script.{is_run as run_test, before_run, after_run};
ghost use Rattle.tac_server.specs.Script.{key_line as key_of_line};

use crate::events::run_events;
use crate::noticed::Noticed;
use crate::script_fault::{Located, ScriptFault, Stop};
use crate::server::Server;
use basics::{Lines, split_once};
use pol_automaton::Meter;
use pol_live::{Live, TextRefusal};
use pol_names::SubjectId;
use std::alloc::Global;
use tac_audit::Witness;
use tac_desks::{LiveDesk, MAX_RECORDS};
use tac_tally::RecordLimit;
use tac_wire::Key;

fn is_run(line: &[u8]) -> bool
    ensures { result ≡ run_test line.now }
{
    line == b"run".as_slice()
}

/// Takes the lines up to `run`, and `run` too, and answers the text before it. Where there is no
/// `run`, all lines are taken.
fn text_before_run<'a>(lines: &mut Lines<'a>) -> Option<&'a [u8]>
    ensures text { MatchOption result
        (list_any run_test lines.old.lines ≡ false)
        (λ text. (list_any run_test lines.old.lines ≡ true)
        × (text.now ≡ text_of_lines (before_run lines.old.lines))
        × (lines.new.lines ≡ after_run lines.old.lines)
        × (lines.new.number ≡ lines.old.number + length (before_run lines.old.lines) + 1)) }
    ensures none { MatchOption result
        (lines.new.number ≡ lines.old.number + length lines.old.lines) (λ text. Unit {0}) }
{
    let text = lines.rest();
    let mut rest = text;
    'lines: while let Some((_, line)) = lines.take_line() {
        if is_run(line) {
            return Some(&text[..text.len() - rest.len()]);
        }
        rest = lines.rest();
    }
    None
}

// The key of a script's first line.
#[tactic(auto, unfolding(crate::specs::Script::key_line))]
fn read_key(line: &[u8]) -> Option<Key>
    ensures { result ≡ key_of_line line.now }
{
    let (word, text) = split_once(line, b' ')?;
    if word != b"key".as_slice() {
        return None;
    }
    Key::read(text)
}

// What stops a script whose policy has a subject that is too large.
fn too_large(subject: SubjectId) -> Stop
    ensures { result ≡ Stop.Fault
        (record { line = None; fault = ScriptFault.TooManyStates subject }) }
{
    Stop::Fault(Located {
        line: None,
        fault: ScriptFault::TooManyStates(subject),
    })
}

// Runs the events with the policy of this text, if it isn't refused.
fn run_text<W: Witness<Noticed>>(
    alloc: Global,
    text: &[u8],
    key: Key,
    lines: &mut Lines<'_>,
    out: &mut Vec<u8>,
    witness: &mut W,
) -> Result<(), Stop>
    ensures { Prints out.old.items out.new.items result
        (TextRuns text.now key lines.old.number lines.old.lines) }
{
    let mut meter = Meter::new();
    match Live::of_text(alloc, text, &mut meter)? {
        Ok(live) => {
            let limit = RecordLimit::refusing(MAX_RECORDS);
            let desk = LiveDesk::of_live(alloc, live, meter, limit)?;
            run_events(alloc, Server::new(alloc, desk, key), lines, out, witness)
        }
        // the policy's first line is the second of the script
        Err(TextRefusal::NoPolicy { line, refusal }) => {
            Err(Stop::at(line + 1, ScriptFault::BadPolicy(refusal)))
        }
        Err(TextRefusal::TooLarge(subject)) => Err(too_large(subject)),
    }
}

// Runs what follows the key.
#[tactic(auto, unfolding(crate::specs::Script::BodyRuns))]
fn run_body<W: Witness<Noticed>>(
    alloc: Global,
    key: Key,
    lines: &mut Lines<'_>,
    out: &mut Vec<u8>,
    witness: &mut W,
) -> Result<(), Stop>
    requires { lines.old.number ≡ 2 }
    ensures { Prints out.old.items out.new.items result (BodyRuns key lines.old.lines) }
{
    let Some(text) = text_before_run(lines) else {
        return Err(Stop::at(lines.number(), ScriptFault::NoRun));
    };
    run_text(alloc, text, key, lines, out, witness)
}

/// Runs a script, and adds what that prints; a fault is left for the caller to print. The witness
/// is told which connections are opened, and of the packets on them.
#[tactic(auto, unfolding(crate::specs::Script::LinesRun))]
pub(crate) fn run_script<W: Witness<Noticed>>(
    alloc: Global,
    script: &[u8],
    out: &mut Vec<u8>,
    witness: &mut W,
) -> Result<(), Stop>
    ensures { Prints out.old.items out.new.items result (LinesRun (lines_of script.now)) }
{
    let mut lines = Lines::new(script);
    let Some((_, line)) = lines.take_line() else {
        return Err(Stop::at(1, ScriptFault::BadKey));
    };
    let Some(key) = read_key(line) else {
        return Err(Stop::at(1, ScriptFault::BadKey));
    };
    run_body(alloc, key, &mut lines, out, witness)
}
