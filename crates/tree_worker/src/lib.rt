//! One visit of a worker in a round of a parallel search: a node is closed for a reason that holds, expanded with a ticket,
//! or given back.
//!
//! A [`TreeWorker`] keeps what one worker finds in a round: an index of the fronts that it expanded, the schedule of the least
//! end that it offered, and notes of what it published and of what it cited of others. No call waits for another thread.
#![tactic(auto)]

mod answer;
mod bounds;
mod leaf;
mod live;
mod live_index;
mod publishing;
mod worker;

pub use answer::{Cite, Close, Visited};
pub use live::LiveNote;
pub use worker::{TreeWorker, WorkerParts};
