//! The door of those who come by a proxy.

ghost use Rattle.std.specs.Prelude.{◌≡◌};
ghost use Rattle.tac_wire.specs.declared.door.Door.TheVariants.{Clear};

use std::marker::Model;
use tac_wire::Door;

/// The door of those who come by a proxy: their packets are in clear (RFC 9887, section 4). It is
/// kept, so that it can be lent.
#[derive(Drop)]
pub struct ClearDoor {
    door: Door,
}

impl Model for ClearDoor {
    ghost use Rattle.std.specs.Prelude.{◌≡◌};
    ghost use Rattle.tac_wire.specs.declared.door.Door.{Door};
    ghost use Rattle.tac_wire.specs.declared.door.Door.TheVariants.{Clear};

    ghost Value = { Door };

    ghost view = { λ kept. kept.door };

    ghost invariant = { λ kept. kept.door ≡ Clear };
}

impl ClearDoor {
    /// It.
    pub fn new() -> ClearDoor {
        ClearDoor { door: Door::Clear }
    }

    /// The door.
    pub fn door(&self) -> &Door
        ensures { result.now ≡ Clear }
    {
        &self.door
    }
}
