ghost use Rattle.log_truth.specs.Laws.{LateLaw, OneLateLaw, HoldsLaw, AcceptsLaw};

/// A front that ends late by a number: whatever completes it ends at this number or later.
#[tactic(auto, using(crate::proofs::LateEnds::late_law, crate::proofs::LateEnds::one_late_law))]
pub fn late_front()
    ensures ends { LateLaw }
    ensures one { OneLateLaw }
{}

/// Where a report holds, what its verdict claims is true; and so it is where its text is accepted.
#[tactic(auto, using(crate::proofs::TrueVerdicts::holds_law, crate::proofs::AcceptedTexts::accepts_law))]
pub fn true_claim()
    ensures holds { HoldsLaw }
    ensures accepts { AcceptsLaw }
{}
