//! What is true of every pattern.

ghost use Rattle.pol_pattern.specs.Matching.{MatchLaw};
ghost use Rattle.pol_pattern.specs.Upgrading.{UpgradeLaw};

/// Does nothing. The clause is true of every pattern, for callers that hold none.
pub fn match_law()
    ensures { MatchLaw }
{}

/// Does nothing. The clause is true of every pattern of version 1, for callers that hold none.
pub fn upgrade_law()
    ensures { UpgradeLaw }
{}
