//! What holds of every history.

ghost use Rattle.tac_hall.specs.History.{LogsLaw, ViewsLaw};
ghost use Rattle.tac_hall.specs.Segments.{JoinsLaw};

/// The logs into which a history is cut have all its calls, and each call of a seat stands in them
/// at the place that the seat is told, after all that the seat called before. Two segments that
/// join are one legal history.
pub fn logs_laws()
    ensures logs { LogsLaw }
    ensures places { ViewsLaw }
    ensures joined { JoinsLaw }
{}
