//! What is asked about a policy's text, and where.

ghost use Rattle.std.specs.Prelude.{Some};
ghost use Rattle.pol_habits.specs.Questions.{question_text};

use crate::abbreviation::Abbreviation;
use basics::Sequence;
use std::alloc::AllocError;
use std::fmt;

/// What is probably not meant, as it is asked about.
#[derive(Clone, Copy)]
pub enum Question {
    /// One of those below.
    Habit(&'static str),
    /// A pattern begins with words that Cisco IOS expands.
    Abbreviated(Abbreviation),
}

impl fmt::Display for Question {
    ghost output = { λ question. Some (question_text question) };

    fn fmt<W: fmt::Write>(&self, f: &mut fmt::Formatter<W>) -> fmt::Result {
        match self {
            Question::Habit(text) => f.write_str(text),
            Question::Abbreviated(words) => {
                write!(
                    f,
                    "Cisco IOS expands {words} before it asks: is that meant?"
                )
            }
        }
    }
}

/// A question about a place of a text: lines and columns count from 1, columns by bytes.
#[derive(Clone, Copy)]
pub struct Asked {
    pub line: usize,
    pub column: usize,
    pub question: Question,
}

/// Adds a question about a habit, if there is one.
pub(crate) fn ask(
    asked: &mut Sequence<Asked>,
    line: usize,
    column: usize,
    habit: Option<&'static str>,
) -> Result<(), AllocError> {
    if let Some(text) = habit {
        asked.push(Asked {
            line,
            column,
            question: Question::Habit(text),
        })?;
    }
    Ok(())
}

// ---- patterns

pub(crate) const CARET: &str = "'^' is a symbol here, and a pattern fits whole lines: is it meant?";

pub(crate) const DOLLAR: &str =
    "'$' is a symbol here, and a pattern fits whole lines: is it meant?";

pub(crate) const DIGIT: &str = "'\\d' is the letter d here: is a digit meant, as '[0-9]'?";

pub(crate) const WORD_BYTE: &str = "'\\w' is the letter w here: is '[A-Za-z0-9_]' meant?";

pub(crate) const SPACE: &str = "'\\s' is the letter s here: is a space meant?";

pub(crate) const NAMED_CLASS: &str =
    "'[[:' begins a class of these symbols here: is a range meant, as '[a-z]'?";

pub(crate) const COUNT: &str = "'{' and '}' are symbols here: is a count meant, as in 'policy 2'?";

pub(crate) const COMMENT: &str =
    "'#' is a symbol here, and begins no comment after a rule: is it meant?";

pub(crate) const QUOTED: &str = "the quotes round it are part of it: are they meant?";

pub(crate) const BLANK_BEFORE: &str = "it begins with a space: is that meant?";

pub(crate) const BLANK_AFTER: &str = "it ends with a space: is that meant?";

pub(crate) const NO_END: &str = "other rules end in ' <cr>': is it meant that this one doesn't?";

pub(crate) const NO_ENDS: &str =
    "no rule ends in ' <cr>', with which Cisco IOS ends each line: is that meant?";

pub(crate) const SHADOWED: &str =
    "this rule decides no line: all that it fits is decided by earlier rules";

// ---- secrets and levels

pub(crate) const HASH_IN_CLEAR: &str =
    "this text itself is the password: is a hash meant, as after 'login-hash'?";

pub(crate) const MANY_ROUNDS: &str =
    "over 20000 rounds: each login takes a processor for 8 milliseconds or more";

pub(crate) const ENABLES: &str = "enabling gives any level, whatever 'priv' says: is that meant?";

// ---- services

pub(crate) const EXEC: &str = "tac_plus calls the shell so: is 'shell' meant?";

pub(crate) const MANDATORY: &str =
    "devices that don't know it refuse the shell: is '*' meant in place of '='?";

pub(crate) const ODD_QUOTES: &str = "an odd number of '\"': is one more meant, or one less?";

pub(crate) const NO_SHELL: &str =
    "no shell starts here: none of its users is permitted the empty line, as by 'permit ()'";

// ---- subjects

pub(crate) const NO_SUBJECTS: &str = "the policy is empty, and so permits nothing: is that meant?";

pub(crate) const NO_MEMBERS: &str = "nobody is in this group: is that meant?";

pub(crate) const NO_LOGIN: &str = "this user has no login: is that meant?";

pub(crate) const DEFAULT_USER: &str =
    "tac_plus has this name for all other users, and here it is one user's: is that meant?";
