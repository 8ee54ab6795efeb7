use crate::node::DequeNode;
use project_net::Project;
use std::collections::LinkedList;

/// What is known of each node of a deque. No value of it is ever made: contracts speak of it.
pub struct NodeTerms {
    /// The project of which the node stands for a front.
    pub project: Project,
    /// Its place is at least this.
    pub from: u32,
    /// Its place is less than this.
    pub to: u32,
}

/// What the pass of one handle has done. No value of it is ever made: contracts speak of it.
pub struct DequeView {
    /// What is known of each node of the deque.
    pub terms: LinkedList<NodeTerms>,
    /// The nodes that the deque accepted from its owner, the first one first. A thief's pass has none.
    pub accepted: LinkedList<DequeNode>,
    /// The nodes that it took, in order, and those that passes joined into it had.
    pub taken: LinkedList<DequeNode>,
    /// How many passes it stands for: itself, and those that were joined into it. A pass that was joined into another stands
    /// for none.
    pub passes: u64,
    /// How many passes were split off it.
    pub split_off: u64,
}
