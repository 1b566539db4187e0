//! What is to be kept, and where a desk hands it over.

ghost use Rattle.std.specs.Prelude.{List, [], ◌∷◌, Option, None};
ghost use Rattle.tac_keep.specs.Kept.{Tells};

use basics::Bytes;
use std::sync::Mutex;
use std::sync::atomic::{AtomicBool, Ordering};

/// What a store is to hold.
#[derive(PartialEq, Eq)]
pub enum Wanted {
    /// The printed form of a policy that was edited.
    Text(Bytes),
    /// Nothing, since the policy is the one that was loaded.
    Nothing,
    /// The printed form of a policy that was edited, for which there was no memory.
    Unprinted,
}

// By hand, so that a proof of an owner has one call at each exit, not a drop of each field.
impl Drop for Wanted {
    fn drop(self) {
        match self {
            Wanted::Text(_) => {}
            Wanted::Nothing => {}
            Wanted::Unprinted => {}
        }
    }
}

/// Who is told what is to be kept, each time that this is another.
pub trait HandOver: Drop {
    ghost use Rattle.tac_keep.specs.declared.tray.Wanted.{Wanted as WantedValue};

    /// All that it was told, in order, where that is known.
    ghost told: { Self → Option (List WantedValue) };

    /// Tells it. What it was told before no longer counts.
    fn hand_over(&mut self, wanted: Wanted)
        ensures { Tells (told self.old) (told self.new) (wanted ∷ []) };
}

/// Where the newest lies until the console takes it. A desk is edited by the calls of its console
/// alone, so one thread comes here, and the lock is always free. Other threads may ask how it is.
#[derive(Drop)]
pub struct Tray {
    newest: Mutex<Option<Wanted>>,
    has_edits: AtomicBool,
    is_kept: AtomicBool,
}

impl Tray {
    /// Nothing lies there, all is kept, and the policy that is served has no edits.
    pub fn new() -> Tray {
        Tray {
            newest: Mutex::new(None),
            has_edits: AtomicBool::new(false),
            is_kept: AtomicBool::new(true),
        }
    }

    /// The policy that is served at first has edits that were kept.
    pub fn begin_with_edits(&self) {
        self.has_edits.store(true, Ordering::Relaxed);
    }

    /// Whether the policy that is served has edits since it was loaded.
    pub fn has_edits(&self) -> bool {
        self.has_edits.load(Ordering::Relaxed)
    }

    /// Whether the store held what it was to hold when it was last looked at.
    pub fn is_kept(&self) -> bool {
        self.is_kept.load(Ordering::Relaxed)
    }

    // Whether it holds that now.
    pub(crate) fn note(&self, is_kept: bool) {
        self.is_kept.store(is_kept, Ordering::Relaxed);
    }

    /// Takes what lies there.
    pub(crate) fn take(&self) -> Option<Wanted> {
        let mut newest = self.newest.try_lock()?;
        newest.take()
    }
}

impl HandOver for &Tray {
    // what lies behind a lock is in no contract
    ghost told = { λ _. None };

    fn hand_over(&mut self, wanted: Wanted) {
        let has_edits = match &wanted {
            Wanted::Nothing => false,
            Wanted::Text(_) | Wanted::Unprinted => true,
        };
        self.has_edits.store(has_edits, Ordering::Relaxed);
        if let Some(mut newest) = self.newest.try_lock() {
            *newest = Some(wanted);
        }
    }
}
