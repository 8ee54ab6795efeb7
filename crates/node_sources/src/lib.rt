//! Where each worker of a round takes its next node: its own deque, the nodes that it has by itself, and the deques of the other
//! workers.
//!
//! However nodes are weighed, each one that a worker was dealt or gave to its deque is taken once, or is left at the end. No call
//! waits.
#![tactic(auto)]

mod reach;
mod seating;
mod settling;
mod source;

pub use reach::Reach;
pub use seating::{ROOM, seat};
pub use settling::{Settled, settle};
pub use source::NodeSource;
