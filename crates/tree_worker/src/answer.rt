use cutset_store::CutRecord;
use precedence_tree::{Children, Node};

/// Which expanded front dominates the front of a closed node.
#[derive(Clone, Copy, Debug, PartialEq, Eq)]
pub enum Cite {
    /// The one at this place, from 0, of the index of earlier rounds.
    Earlier(u32),
    /// The one that the worker itself expanded, with this number among those that it expanded, from 0.
    Own(u32),
    /// The one that another worker published at this place, from 0, of its row.
    Live { worker: u32, place: u64 },
}

/// Why a node is closed.
#[derive(Clone, Copy, Debug, PartialEq, Eq)]
pub enum Close {
    /// All jobs are placed.
    Leaf,
    /// Its tail bound is no less than the best that was loaded.
    TailBound,
    /// Its work bound on this renewable resource is no less than the best that was loaded.
    WorkBound(u8),
    /// A front that was expanded dominates it.
    Cutset(Cite),
}

/// What a visit did with its node, which comes back with the answer.
#[derive(Drop)]
pub enum Visited {
    /// It is closed.
    Closed(Node, Close),
    /// It was expanded with a ticket; these are all its children, in order, and the record of its front that the worker keeps.
    /// The record shares its block.
    Expanded(Node, Children, CutRecord),
    /// There was no ticket for it.
    Back(Node),
}
