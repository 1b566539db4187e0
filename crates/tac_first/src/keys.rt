//! The keys of a device.

ghost use Rattle.std.specs.Prelude.{◌≡◌};
ghost use Rattle.tac_wire.specs.declared.door.Door.TheVariants.{Padded};
ghost use Rattle.tac_first.specs.Choice.{key_of};

use tac_wire::{Door, KeyDoor};

/// The key of a device, and an old one that is still taken, as while it is changed.
#[derive(Drop)]
pub struct Keys {
    pub present: KeyDoor,
    pub old: Option<KeyDoor>,
}

/// Which of a device's keys is meant.
#[derive(Clone, Copy, Debug, PartialEq, Eq)]
pub enum Shown {
    Present,
    Old,
}

impl Keys {
    /// The door of the key that is meant. Where there is no old one, it is the present one in any
    /// case.
    pub fn door_of(&self, shown: Shown) -> &Door
        ensures { result.now ≡ Padded (key_of shown self.now) }
    {
        match (shown, &self.old) {
            (Shown::Old, Some(old)) => old.door(),
            _ => self.present.door(),
        }
    }
}
