//! Deques of nodes for the workers of one round of a parallel search: each worker pushes nodes into its own deque and pops
//! the one that it pushed last, and others steal the one that was pushed first.
//!
//! Each accepted node is taken exactly once: by the owner, by a thief, or when the deque is emptied. No call waits.
#![tactic(auto)]

mod deque;
mod node;
mod rule;
mod thief;
mod view;

pub use crossbeam_deque::Steal;
pub use deque::NodeDeque;
pub use node::DequeNode;
pub use thief::Thief;
pub use view::{DequeView, NodeTerms};
