//! The time that a line tells.

use basics::Bytes;
use jiff::Timestamp;
use std::alloc::Global;
use std::cell::RefCell;
use std::time::Clock;
use tac_audit::Refused;

/// A moment by RFC 3339, in UTC and to the millisecond.
const FORM: &str = "%Y-%m-%dT%H:%M:%S.%3fZ";

// The text of a moment. The error means that memory ran out.
fn text_of(alloc: Global, moment: Timestamp) -> Result<Bytes, Refused> {
    let Ok(text) = moment.strftime(alloc, FORM) else {
        return Err(Refused);
    };
    let bytes = Bytes::from_slice(alloc, text.as_bytes())?;
    Ok(bytes)
}

/// The present moment. The error means that the clock can't be read, or that memory ran out.
pub(crate) fn now<C: Clock>(alloc: Global, clock: &C) -> Result<Bytes, Refused> {
    let Ok(moment) = Timestamp::now(clock) else {
        return Err(Refused);
    };
    text_of(alloc, moment)
}

// A moment whose text was made.
#[derive(Drop)]
struct Stamp {
    millisecond: i64,
    text: Bytes,
}

/// The last moment that was told by one thread. A device that asks much has many lines in one
/// millisecond, and the text takes longer than all else of a line's head.
#[derive(Drop)]
pub struct Moments {
    last: RefCell<Option<Stamp>>,
}

impl Moments {
    /// None was told. Takes no memory.
    pub fn new() -> Moments {
        Moments {
            last: RefCell::new(None),
        }
    }

    // The text of this millisecond, where it was told last.
    fn last_of(&self, alloc: Global, millisecond: i64) -> Result<Option<Bytes>, Refused> {
        let Ok(last) = self.last.try_borrow() else {
            return Ok(None);
        };
        match &*last {
            Some(stamp) if stamp.millisecond == millisecond => Ok(Some(stamp.text.copy(alloc)?)),
            _ => Ok(None),
        }
    }

    // Keeps the text of this millisecond.
    fn keep(&self, millisecond: i64, text: Bytes) {
        if let Ok(mut last) = self.last.try_borrow_mut() {
            *last = Some(Stamp { millisecond, text });
        }
    }

    /// The present moment. The error means that the clock can't be read, or that memory ran out.
    pub(crate) fn now<C: Clock>(&self, alloc: Global, clock: &C) -> Result<Bytes, Refused> {
        let Ok(moment) = Timestamp::now(clock) else {
            return Err(Refused);
        };
        let millisecond = moment.as_millisecond();
        if let Some(text) = self.last_of(alloc, millisecond)? {
            return Ok(text);
        }
        let text = text_of(alloc, moment)?;
        self.keep(millisecond, text.copy(alloc)?);
        Ok(text)
    }
}
