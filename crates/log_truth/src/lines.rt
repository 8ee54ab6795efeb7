ghost use Rattle.log_truth.specs.Laws.{JoinedLaw, AloneLaw, BelowLaw, OneNodeLaw, NodeFrontLaw, OneLineLaw, FrontNumberLaw, GapLogLaw};

/// The log of a branch is its line and then the logs of the branches below it, each whole, one after another.
#[tactic(auto, using(crate::proofs::JoinedLogs::joined_law, crate::proofs::JoinedLogs::alone_law, crate::proofs::JoinedLogs::below_law))]
pub fn joined()
    ensures logs { JoinedLaw }
    ensures alone { AloneLaw }
    ensures below { BelowLaw }
{}

/// Each line of a log has one node, and no front has two lines: a front that has one is known by its number.
#[tactic(auto, using(crate::proofs::OneLine::one_node_law, crate::proofs::LineFronts::node_front_law, crate::proofs::OneLine::one_line_law, crate::proofs::OneLine::front_number_law))]
pub fn one_line()
    ensures node { OneNodeLaw }
    ensures front { NodeFrontLaw }
    ensures line { OneLineLaw }
    ensures number { FrontNumberLaw }
{}

/// Where the root has a budget gap, the log is the line that names it.
#[tactic(auto, using(crate::proofs::GapLogs::gap_log_law))]
pub fn gap_log()
    ensures { GapLogLaw }
{}
