//! Henry Spencer's older regular expressions, which have less than those of POSIX and of the GNU C
//! library.

/// What of an expression they read otherwise.
#[derive(Clone, Copy)]
pub enum Older {
    Count,
    NamedClass,
    Escape,
}

// What means something to the C library after a `\`, and there stands for itself.
fn is_operator(byte: u8) -> bool {
    b"wWsSbB<>`'123456789".contains(&byte)
}

// What comes after a class, whose `[` stands before this text; none if a class by name is in it. A
// `]` that stands first is a symbol of it.
fn behind_class(after: &[u8]) -> Option<&[u8]> {
    let mut rest = match after {
        [b'^', b']', later @ ..] => later,
        [b'^' | b']', later @ ..] => later,
        _ => after,
    };
    'symbols: for _ in 0..after.len() {
        match rest {
            [b'[', b':' | b'.' | b'=', ..] => return None,
            [b']', later @ ..] => return Some(later),
            [_, later @ ..] => rest = later,
            [] => break,
        }
    }
    Some(rest)
}

impl Older {
    /// What of an expression they read otherwise than the GNU C library does, at the first place where
    /// they do. Where there is none, both find the same, or one of them refuses the expression.
    ///
    /// Linear in the expression.
    pub fn find(text: &[u8]) -> Option<Older> {
        let mut rest = text;
        'signs: for _ in 0..text.len() {
            match rest {
                [b'{', ..] => return Some(Older::Count),
                [b'\\', byte, later @ ..] => {
                    if is_operator(*byte) {
                        return Some(Older::Escape);
                    }
                    rest = later;
                }
                [b'[', later @ ..] => match behind_class(later) {
                    Some(behind) => rest = behind,
                    None => return Some(Older::NamedClass),
                },
                [_, later @ ..] => rest = later,
                [] => break,
            }
        }
        None
    }

    /// What is told of it.
    pub fn text(self) -> &'static str {
        match self {
            Older::Count => "older expressions have no counts, and take '{' as itself",
            Older::NamedClass => "older expressions have no classes by name",
            Older::Escape => "older expressions take what follows its '\\' as itself",
        }
    }
}
