//! What each worker of a round did, by itself, and that together it is a part of the round: no node is lost between workers, and
//! none is visited twice. For laws alone: nothing here runs.
#![tactic(auto)]

mod law;

pub use law::crew_part;
