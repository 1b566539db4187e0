//! What an answer says of the line that it answers.

ghost use Rattle.std.specs.Prelude.{◌≡◌, drop};
ghost use Rattle.tac_console_client.specs.Hearing as hearing;

/// What was heard of a line, or of several.
#[derive(Clone, Copy, Debug, PartialEq, Eq)]
pub enum Heard {
    /// Each was obeyed.
    Well,
    /// Each was, but a restart would lose what was edited.
    Unkept,
    /// One wasn't obeyed.
    Refused,
}

impl Heard {
    /// What was heard of this line and of those before.
    pub(crate) fn and(self, before: Heard) -> Heard
        ensures { result ≡ hearing.worse self before }
    {
        match self {
            Heard::Refused => Heard::Refused,
            Heard::Unkept if before == Heard::Refused => Heard::Refused,
            Heard::Unkept => Heard::Unkept,
            Heard::Well => before,
        }
    }
}

/// What was heard of an answer so far, and whether its next line may tell more.
#[derive(Clone, Copy, PartialEq, Eq)]
pub(crate) struct Listening {
    pub(crate) heard: Heard,
    pub(crate) is_open: bool,
}

// What comes after so many bytes.
fn after_first(text: &[u8], count: usize) -> &[u8]
    ensures { result.now ≡ drop count text.now }
{
    if count <= text.len() {
        &text[count..]
    } else {
        &[]
    }
}

fn begins_with_digit(text: &[u8]) -> bool
    ensures { result ≡ hearing.begins_with_digit text.now }
{
    match text {
        [byte, ..] => matches!(byte, b'0'..=b'9'),
        [] => false,
    }
}

// `refused` with a number: `refused by` says who refuses a service, which is what was asked.
fn is_numbered(line: &[u8]) -> bool
    ensures { result ≡ hearing.is_numbered line.now }
{
    line.starts_with(b"refused ") && begins_with_digit(after_first(line, 8))
}

// Whether the first line of an answer says that the line wasn't obeyed.
fn is_refusal(line: &[u8]) -> bool
    ensures { result ≡ hearing.is_refusal line.now }
{
    is_numbered(line)
        || line.starts_with(b"refused at edit ")
        || line.starts_with(b"fault ")
        || line.starts_with(b"unread ")
        || line.starts_with(b"devices fault ")
        || line.starts_with(b"devices unread ")
        || line.starts_with(b"busy ")
        || line == b"busy\n".as_slice()
}

// What comes before the answer to an edit that was made and isn't kept.
fn is_note(line: &[u8]) -> bool
    ensures { result ≡ hearing.is_note line.now }
{
    line.starts_with(b"not kept: ")
}

/// The answer to a line that is none of a console.
pub(crate) fn is_bad_edit(line: &[u8]) -> bool
    ensures { result ≡ hearing.is_bad_edit line.now }
{
    line == b"refused 1 BadEdit\n".as_slice()
}

impl Listening {
    /// No line of an answer so far.
    pub(crate) fn new() -> Listening
        ensures first { result ≡ hearing.nothing }

        // What is heard line by line is what is heard of the whole answer.
        ensures whole { hearing.HearsAnswers }
    {
        Listening {
            heard: Heard::Well,
            is_open: true,
        }
    }

    // After a line that may tell more.
    fn opened(self, line: &[u8]) -> Listening
        ensures { result ≡ hearing.opened self line.now }
    {
        if is_note(line) {
            return Listening {
                heard: Heard::Unkept,
                is_open: true,
            };
        }
        let heard = if is_refusal(line) {
            Heard::Refused
        } else {
            self.heard
        };
        Listening {
            heard,
            is_open: false,
        }
    }

    /// After one more line of it, with its LF.
    pub(crate) fn after(self, line: &[u8]) -> Listening
        ensures { result ≡ hearing.after self line.now }
    {
        if self.is_open {
            self.opened(line)
        } else {
            self
        }
    }
}
