ghost use Rattle.rcpsp_model.specs.Examples.{TwoInTurn, AfterABreak, ZeroLengths, ShortOrCheap, NeedsDiffer};

/// A capacity, a precedence and a tail bound, where two jobs can't run side by side.
#[tactic(auto, using(crate::proofs::SmallProjects::two_facts))]
pub fn two_in_turn()
    ensures { TwoInTurn }
{}

/// A calendar: a job that waits until there is enough of the resource again, and the work bound.
#[tactic(auto, using(crate::proofs::SmallProjects::break_facts))]
pub fn after_a_break()
    ensures { AfterABreak }
{}

/// A front of jobs that take no time, and its one child.
#[tactic(auto, using(crate::proofs::SmallProjects::zero_facts))]
pub fn zero_lengths()
    ensures { ZeroLengths }
{}

/// A budget that doesn't pay for every short mode.
#[tactic(auto, using(crate::proofs::SmallProjects::short_facts))]
pub fn short_or_cheap()
    ensures { ShortOrCheap }
{}

/// Fronts that differ in what they need, of which one dominates another and one doesn't.
#[tactic(auto, using(crate::proofs::SmallProjects::needs_facts))]
pub fn needs_differ()
    ensures { NeedsDiffer }
{}
