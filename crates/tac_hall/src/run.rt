//! Which run of a server is meant.

use std::marker::Brand;

/// One run of a server: its history, and how it was opened, which is what its desk represented at
/// first, and its limits. All that meets under one lock is generic in it, and one call picks it.
pub trait Run {
    ghost use Rattle.tac_hall.specs.Room.{Opening};
    ghost use Rattle.tac_roll.specs.Roll.{RollId};

    ghost roll: { RollId };

    ghost opening: { Opening };
}

impl Run for Brand {
    ghost use Rattle.tac_hall.specs.Room.{no_opening};
    ghost use Rattle.tac_roll.specs.Roll.{no_roll};

    ghost roll = { no_roll };

    ghost opening = { no_opening };
}
