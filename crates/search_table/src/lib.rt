//! What the workers of one round of a parallel search share: the best end found so far, the tickets that they drew, and
//! how often each of them has published.
//!
//! The words of a [`RoundTable`] change in single atomic steps. A worker takes steps by its [`Pass`]. No call waits or
//! repeats a step, and only [`RoundTable::new`] takes memory.
#![tactic(auto)]

mod pass;
mod rule;
mod table;
mod view;

pub use pass::Pass;
pub use table::{Draw, RoundEnd, RoundTable};
pub use view::{PassView, RoundTerms, WorkerCount};
