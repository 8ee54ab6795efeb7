ghost use Rattle.round_shares.specs.Laws.{CrewLaw};

/// The shares of all workers of a round, between whom no node was lost and none came twice, are a part of the round.
pub fn crew_part()
    ensures { CrewLaw }
{}
