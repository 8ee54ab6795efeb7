ghost use Rattle.rcpsp_model.specs.Laws.{TailLaw, HasTailLaw, JobTailLaw, WorkLaw, QuotientLaw, LowerLaw, GapLaw, OneTailBoundLaw, OneWorkBoundLaw, OneLowerBoundLaw};

/// What completes a front ends at its tail bound or later.
#[tactic(auto, using(crate::proofs::BoundsHold::tail_law))]
pub fn tail_bound()
    ensures { TailLaw }
{}

/// Each job has a tail, and no feasible schedule ends before it.
pub fn job_tail()
    ensures exists { HasTailLaw }
    ensures bound { JobTailLaw }
{}

/// What completes a front ends at each of its work bounds or later.
pub fn work_bound()
    ensures { WorkLaw }
{}

/// Where the capacity is whole, the work bound is a quotient, rounded up.
pub fn work_quotient()
    ensures { QuotientLaw }
{}

/// What completes a front ends at its lower bound or later.
#[tactic(auto, using(crate::proofs::BoundsHold::lower_law))]
pub fn lower_bound()
    ensures { LowerLaw }
{}

/// Nothing completes a front that has a budget gap.
#[tactic(auto, using(crate::proofs::BoundsHold::gap_law))]
pub fn budget_gap()
    ensures { GapLaw }
{}

/// A front has one tail bound, one work bound of each resource that has a capacity, and one lower bound.
pub fn one_bound()
    ensures tail { OneTailBoundLaw }
    ensures work { OneWorkBoundLaw }
    ensures lower { OneLowerBoundLaw }
{}
