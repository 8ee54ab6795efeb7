ghost use Rattle.log_truth.specs.Laws.{ThreeRulesLaw, NextLaw, NextNodeLaw, BreakLaw, SurplusLaw, MissingLaw, RoomLaw};

/// The line of a branch, as rules for whoever judges or makes it.
pub fn line_rules()
    ensures { ThreeRulesLaw }
{}

/// As lines come: the next one leaves wanted what stands below it, breaks a rule, is one too many, or is missing.
pub fn next_line()
    ensures good { NextLaw }
    ensures node { NextNodeLaw }
    ensures broken { BreakLaw }
    ensures surplus { SurplusLaw }
    ensures missing { MissingLaw }
{}

/// A log has few lines, and so has what is wanted after some of them.
#[tactic(auto, using(crate::proofs::FewLines::room_law))]
pub fn few_lines()
    ensures { RoomLaw }
{}
