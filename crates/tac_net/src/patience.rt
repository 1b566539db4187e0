//! How patient a server is with a device.

ghost use Rattle.std.specs.Prelude.{◌≡◌, is_some};
ghost use Rattle.tac_net.specs.Patience as patience;

/// How long a device is borne with before its first reply, in milliseconds.
pub(crate) const FIRST_IDLE: u64 = 10_000;

/// Milliseconds of a second.
const SECOND: u64 = 1_000;

/// After how many seconds without a reply a device is given up; 0 means never.
#[derive(Clone, Copy, Debug, PartialEq, Eq)]
pub struct Idle {
    /// Before its first reply after ten at the latest.
    pub idle: u32,
    /// Where its last reply asked for a name or a password.
    pub login: u32,
}

/// What of a connection says when its device is given up. Times are in milliseconds since any
/// moment, by one clock; where the clock can't be read there is none, and nobody is given up.
///
/// It is a value: each step answers what is so after it, and none looks at a clock.
#[derive(Clone, Copy, Debug, PartialEq, Eq)]
pub struct Patience {
    // when the last reply was taken, or the connection accepted
    since: Option<u64>,
    has_replied: bool,
    // since when a reply waits to be taken, if one does
    waits: Option<u64>,
}

impl Patience {
    /// A connection was accepted.
    pub fn accepted(now: Option<u64>) -> Patience
        ensures { result ≡ patience.accepted now }
    {
        Patience {
            since: now,
            has_replied: false,
            waits: None,
        }
    }

    /// A reply was taken whole.
    pub fn taken(self, now: Option<u64>) -> Patience
        ensures { result ≡ patience.taken now }
    {
        Patience {
            since: now,
            has_replied: true,
            waits: None,
        }
    }

    /// A reply wasn't taken, or not whole.
    pub fn untaken(self, now: Option<u64>) -> Patience
        ensures { result ≡ patience.untaken self now }
    {
        let waits = match self.waits {
            Some(first) => Some(first),
            None => now,
        };
        Patience {
            since: self.since,
            has_replied: self.has_replied,
            waits,
        }
    }

    /// Whether a reply waits to be taken.
    pub fn has_untaken(self) -> bool
        ensures { result ≡ is_some self.waits }
    {
        self.waits.is_some()
    }

    // For how long the device is borne with, in milliseconds; for ever where there is none.
    fn allowed(self, idle: Idle, asks: bool) -> Option<u64>
        ensures { result ≡ patience.allowed self idle asks }
    {
        let seconds = if asks { idle.login } else { idle.idle };
        if seconds == 0 {
            return None;
        }
        let milliseconds = u64::from(seconds) * SECOND;
        if self.has_replied {
            Some(milliseconds)
        } else {
            Some(milliseconds.min(FIRST_IDLE))
        }
    }

    /// Whether the device is given up: its reply has waited for too long to be taken, or else none
    /// was taken for too long. Its last reply asked for a name or a password, or not.
    pub fn is_over(self, idle: Idle, asks: bool, now: Option<u64>) -> bool
        ensures { result ≡ patience.is_over self idle asks now }
    {
        let start = match self.waits {
            Some(first) => Some(first),
            None => self.since,
        };
        let Some(allowed) = self.allowed(idle, asks) else {
            return false;
        };
        let Some(start) = start else {
            return false;
        };
        let Some(now) = now else {
            return false;
        };
        allowed <= now.saturating_sub(start)
    }
}
