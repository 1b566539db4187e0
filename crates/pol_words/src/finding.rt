//! What is told of a text that is no policy.

ghost use Rattle.std.specs.Prelude.{◌≡◌, ◌++◌, Some};
ghost use Rattle.pol_words.specs.FindingText.{finding_text, detail_text};

use crate::names::NameReason;
use crate::reason::LineReason;
use crate::values::ValueReason;
use pol_names::Name;
use pol_text::PolicyRefusal;
use std::fmt;

/// What keeps a text from being a policy.
#[derive(Clone, Copy)]
pub enum Finding {
    /// A carriage return.
    CarriageReturn,
    /// A tab.
    Tab,
    /// A byte order mark.
    ByteOrderMark,
    /// A byte in a line that isn't UTF-8.
    NotUtf8,
    /// Another byte that is no symbol.
    NotSymbol,
    /// A keyword in capitals.
    Capitals,
    /// It isn't a line of a policy.
    BadLine(LineReason),
    /// A name, or a service, is invalid, for this reason.
    BadName(NameReason),
    /// A value is invalid, for this reason.
    BadValue(ValueReason),
    /// A line that is said of a subject stands before any.
    NoSubject,
    /// What else is wrong, as a check names it.
    Refused(PolicyRefusal),
    /// The parent of this name is no group of the policy.
    NoParent(Name),
    /// A group's chain comes back to it.
    Cycle,
    /// The rules along a subject's chain have too many states.
    TooManyStates,
    /// A rule has a dot after a search.
    AfterSearch,
}

impl Finding {
    // How it is told, up to what it says of a reason or a name.
    fn text(&self) -> &'static str
        ensures { finding_text self.now ≡ result.now ++ detail_text self.now }
    {
        match self {
            Finding::CarriageReturn => "a carriage return: lines end in LF alone",
            Finding::Tab => "a tab: words are set apart by spaces",
            Finding::ByteOrderMark => "a byte order mark: a policy is printable ASCII",
            Finding::NotUtf8 => "a byte that isn't UTF-8: a policy is printable ASCII",
            Finding::NotSymbol => "a byte that is no symbol: a policy is printable ASCII",
            Finding::Capitals => "a keyword in capitals: keywords are in lower case",
            Finding::BadLine(_) => "refused: 1 BadLine: ",
            Finding::BadName(_) => "refused: 2 BadName: ",
            Finding::BadValue(_) => "refused: 6 BadValue: ",
            Finding::NoSubject => {
                "refused: 4 NoSubject: no line 'group NAME' or 'user NAME' stands before it"
            }
            Finding::Refused(_) => "refused: ",
            Finding::NoParent(_) => "the policy has no group ",
            Finding::Cycle => "the chain of parents comes back to this group",
            Finding::TooManyStates => {
                "refused: TooManyStates: the rules along this chain have over 16384 states"
            }
            Finding::AfterSearch => {
                "a dot after a '.*' may double the states: '.*(vlan|arp).*' takes fewer than two rules"
            }
        }
    }
}

impl fmt::Display for Finding {
    ghost output = { λ finding. Some (finding_text finding) };

    fn fmt<W: fmt::Write>(&self, f: &mut fmt::Formatter<W>) -> fmt::Result {
        f.write_str(self.text())?;
        match self {
            Finding::BadLine(reason) => write!(f, "{reason}"),
            Finding::BadName(reason) => write!(f, "{reason}"),
            Finding::BadValue(reason) => write!(f, "{reason}"),
            Finding::Refused(refusal) => write!(f, "{refusal}"),
            Finding::NoParent(name) => write!(f, "{name}"),
            _ => Ok(()),
        }
    }
}
