//! What holds of all that there is to tell a witness.

ghost use Rattle.tac_worker.specs.Told.{ToldLaw};

/// Does nothing. The clause is true of all packets, answers and doors: the replies that are told
/// are those that are sent, in the same order.
pub fn told_law()
    ensures { ToldLaw }
{}
