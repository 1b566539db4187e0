//! What is read again where an operator says so: a policy, which takes the place of the present
//! one, and a devices' file.

ghost use Rattle.std.specs.Prelude.{◌≡◌, ◌++◌, IfOk, OnOk};
ghost use Rattle.tac_console.specs.Faults as faults;
ghost use Rattle.tac_hall_console.specs.DevicesAnswer.{IsDevicesAnswer, no_devices_line};
ghost use Rattle.tac_hall_console.specs.DevicesAnswer.{unread_devices_line};
ghost use Rattle.tac_hall_console.specs.Operated as operated;
ghost use Rattle.tac_hall_console.specs.Shown as specified;
ghost use Rattle.tac_hall_console.specs.Shown.{shown};

use basics::Bytes;
use pol_text::{Policy, PolicyFault};
use std::alloc::{AllocError, Global};
use tac_console::write_policy_fault;

/// Why the text of a policy can't be had.
#[derive(Drop)]
pub enum Unread {
    /// For this reason, which is told in one line.
    Why(Bytes),
    /// Memory ran out.
    Memory,
}

/// Where a policy and devices come from, each time that they are asked for.
pub trait Source {
    /// The text of the policy as it is now. It may wait for what it is read from.
    fn text(&self, alloc: Global) -> Result<Vec<u8>, Unread>;

    /// Reads the devices' file again, if there is one. If its text is taken, its devices are served
    /// from the next connection on; else all is as before. The result is the answer, a line with
    /// its LF, and says which. The error means that memory ran out, and that all is as before. It
    /// may wait for what it is read from.
    fn reload_devices(&self, alloc: Global) -> Result<Bytes, AllocError>
        ensures { IfOk result IsDevicesAnswer };

    /// Says a line of an answer, with its LF, where whoever runs the server sees it too.
    fn warn(&self, line: &[u8]);
}

fn is_control(byte: u8) -> bool
    ensures { result ≡ specified.is_control byte }
{
    byte < b' ' || byte == 0x7F
}

fn shown_byte(byte: u8) -> u8
    ensures { result ≡ specified.shown_byte byte }
{
    if is_control(byte) { b'?' } else { byte }
}

// Adds bytes as a line shows them: without a line end, or any other control character.
fn add_shown(line: &mut Vec<u8>, bytes: &[u8]) -> Result<(), AllocError>
    ensures { OnOk result (line.new.items ≡ line.old.items ++ shown bytes.now) }
{
    'bytes: for byte in bytes {
        line.push(shown_byte(*byte))?;
    }
    Ok(())
}

// The line that says why a text is no policy.
fn no_policy(alloc: Global, fault: PolicyFault) -> Result<Bytes, AllocError>
    ensures { IfOk result (λ line. line ≡ faults.policy_fault fault) }
{
    let mut line = Vec::new(alloc);
    write_policy_fault(alloc, &mut line, fault)?;
    Ok(Bytes::from(line))
}

// The line that says why there is no text. In it each control character is a `?`.
fn no_text(alloc: Global, why: &[u8]) -> Result<Bytes, AllocError>
    ensures { IfOk result (λ line. line ≡ operated.unread_line why.now) }
{
    let mut line = Vec::new(alloc);
    line.extend_from_slice(b"unread ")?;
    add_shown(&mut line, why)?;
    line.extend_from_slice(b"\n")?;
    Ok(Bytes::from(line))
}

/// What a source answers that has no devices' file.
pub fn no_devices(alloc: Global) -> Result<Bytes, AllocError>
    ensures { IfOk result (λ line. line ≡ no_devices_line) }
{
    Bytes::from_slice(alloc, b"no devices\n")
}

/// What a source answers whose devices' file can't be read for this reason: one line, in which each
/// control character is a `?`.
pub fn unread_devices(alloc: Global, why: &[u8]) -> Result<Bytes, AllocError>
    ensures { IfOk result (λ line. line ≡ unread_devices_line why.now) }
{
    let mut line = Vec::new(alloc);
    line.extend_from_slice(b"devices unread ")?;
    add_shown(&mut line, why)?;
    line.extend_from_slice(b"\n")?;
    Ok(Bytes::from(line))
}

// The policy that a text says, or the line that tells why it says none.
fn judge(alloc: Global, text: &[u8]) -> Result<Result<Policy, Bytes>, AllocError>
    ensures { IfOk result (operated.ReadsBy text.now) }
{
    match Policy::read(alloc, text) {
        Ok(policy) => Ok(Ok(policy)),
        Err(PolicyFault::Memory) => Err(AllocError),
        Err(fault) => {
            let line = no_policy(alloc, fault)?;
            Ok(Err(line))
        }
    }
}

/// The policy of a source, or the line that tells why there is none. The error means that memory
/// ran out, of the source too. Linear in the text, but for what the source takes.
pub(crate) fn read_source<S: Source>(
    alloc: Global,
    source: &S,
) -> Result<Result<Policy, Bytes>, AllocError>
    ensures { IfOk result operated.Reads }
{
    match source.text(alloc) {
        Ok(text) => judge(alloc, text.as_slice()),
        Err(Unread::Memory) => Err(AllocError),
        Err(Unread::Why(why)) => {
            let line = no_text(alloc, why.as_slice())?;
            Ok(Err(line))
        }
    }
}
