use precedence_tree::Node;

/// A node that a deque accepted.
#[derive(Drop)]
pub struct DequeNode {
    /// How many nodes the deque had accepted before it.
    pub number: u32,
    /// Its place, a number that came with it.
    pub place: u32,
    pub node: Node,
}
