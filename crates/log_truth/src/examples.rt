ghost use Rattle.log_truth.specs.Examples.{InTurn, AfterABreak, Letters, Citations, NumberOnTrust, CitationOfAny, ChildLeftOut, Refusals};

/// Logs of two jobs that can't run side by side, whole and cut off.
#[tactic(auto, using(crate::proofs::WorkedLogs::in_turn_facts))]
pub fn in_turn()
    ensures { InTurn }
{}

/// Logs under a calendar, whole and cut off.
#[tactic(auto, using(crate::proofs::WorkedLogs::break_facts))]
pub fn after_a_break()
    ensures { AfterABreak }
{}

/// A log of each letter.
#[tactic(auto, using(crate::proofs::WorkedLogs::letters_facts))]
pub fn letters()
    ensures { Letters }
{}

/// Logs that cite earlier lines, and one that cites a later line.
#[tactic(auto, using(crate::proofs::WorkedLogs::citations_facts))]
pub fn citations()
    ensures { Citations }
{}

/// Without one of the points of a log that holds, a false claim would stand: where the numbers of lines that were left are
/// trusted, where any line may be cited, and where a child is left out.
#[tactic(auto, using(crate::proofs::WorkedLogs::trust_facts, crate::proofs::WorkedLogs::citation_facts, crate::proofs::WorkedLogs::left_out_facts))]
pub fn needed_points()
    ensures number { NumberOnTrust }
    ensures citation { CitationOfAny }
    ensures child { ChildLeftOut }
{}

/// What is wrong first with logs that don't hold.
#[tactic(auto, using(crate::proofs::WorkedLogs::refusals_facts))]
pub fn refusals()
    ensures { Refusals }
{}
