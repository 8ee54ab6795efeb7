ghost use Rattle.rcpsp_model.specs.Laws.{FrontLaw, RootLaw, LeafLaw, ExchangeLaw, ListExchangeLaw, EligibleLaw, OneListLaw, ChildrenLaw, DominanceLaw};

/// How long a front can be, and when it ends at the latest.
#[tactic(auto, using(crate::proofs::RootAndLeaves::front_law))]
pub fn front_limits()
    ensures { FrontLaw }
{}

/// The empty front is completed by exactly the feasible schedules.
#[tactic(auto, using(crate::proofs::RootAndLeaves::root_law))]
pub fn root()
    ensures { RootLaw }
{}

/// A leaf is completed by its own schedule alone, which ends with it.
pub fn leaf()
    ensures { LeafLaw }
{}

/// Whatever completes a front that isn't a leaf can be exchanged, at no later end, for what completes one of its placed
/// children.
#[tactic(auto, using(crate::proofs::Exchanged::exchange_law, crate::proofs::ChildLists::list_exchange_law))]
pub fn exchange()
    ensures entry { ExchangeLaw }
    ensures list { ListExchangeLaw }
{}

/// A job is eligible exactly where the test says so.
#[tactic(auto, using(crate::proofs::Choices::eligible_law))]
pub fn eligible()
    ensures { EligibleLaw }
{}

/// A front has one list of children: each eligible job has exactly one child by each of its modes.
#[tactic(auto, using(crate::proofs::ChildLists::one_list_law))]
pub fn one_list()
    ensures { OneListLaw }
{}

/// The list of a front's children has all its placed children, and each of them is a front.
#[tactic(auto, using(crate::proofs::ChildLists::children_law))]
pub fn children()
    ensures { ChildrenLaw }
{}

/// Where a front dominates another, whatever completes the other can be replaced, at no later end, by what completes it.
#[tactic(auto, using(crate::proofs::Dominated::dominance_law))]
pub fn dominance()
    ensures { DominanceLaw }
{}
