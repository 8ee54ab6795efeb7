ghost use Rattle.rcpsp_model.specs.Laws.{RowLaw, OtherPeriodLaw, CapLaw, WholeLaw, CalmLaw, SameFactsLaw, RankLaw};

/// What there is of a renewable resource in a period that a row of the calendar has, and in any other.
#[tactic(auto, using(crate::proofs::Calendars::row_law, crate::proofs::Calendars::other_period_law))]
pub fn calendar()
    ensures row { RowLaw }
    ensures other { OtherPeriodLaw }
{}

/// What there is of a renewable resource in a period, where other laws rely on it.
#[tactic(auto, using(crate::proofs::Calendars::cap_law, crate::proofs::Calendars::whole_law, crate::proofs::Calendars::calm_law))]
pub fn capacities()
    ensures at_most_capacity { CapLaw }
    ensures whole_from_calm { WholeLaw }
    ensures calm_comes_soon { CalmLaw }
{}

/// Two projects with the same facts are equal.
pub fn same_facts()
    ensures { SameFactsLaw }
{}

/// Each job has exactly one rank.
#[tactic(auto, using(crate::proofs::Ranks::rank_law))]
pub fn job_rank()
    ensures { RankLaw }
{}
