//! What becomes of a line that a client reads.

ghost use Rattle.std.specs.Prelude.{◌≡◌};
ghost use Rattle.tac_console_client.specs.Typing as typing;

use basics::without_leading_spaces;

/// What becomes of a line.
#[derive(Clone, Copy, PartialEq, Eq)]
pub(crate) enum Typed {
    /// It is passed over.
    Nothing,
    /// It ends the session, and the server doesn't see it.
    Leave,
    /// It stops the server, and ends the session once that has ended.
    Stop,
    /// It is sent, and answered.
    Line,
}

/// A line without the CR that may come before its LF.
pub(crate) fn without_return(line: &[u8]) -> &[u8]
    ensures { result.now ≡ typing.without_return line.now }
{
    if line.ends_with(b"\r") {
        let kept = line.len().saturating_sub(1);
        return &line[..kept];
    }
    line
}

// Empty lines, and comments.
fn says_nothing(text: &[u8]) -> bool
    ensures { result ≡ typing.says_nothing text.now }
{
    match text {
        [byte, ..] => *byte == b'#',
        [] => true,
    }
}

/// What becomes of this line, which has neither its LF nor a CR.
pub(crate) fn typed_line(line: &[u8]) -> Typed
    ensures { result ≡ typing.typed line.now }
{
    if says_nothing(without_leading_spaces(line)) {
        return Typed::Nothing;
    }
    if line == b"exit".as_slice() || line == b"logout".as_slice() {
        return Typed::Leave;
    }
    if line == b"quit".as_slice() {
        return Typed::Stop;
    }
    Typed::Line
}
