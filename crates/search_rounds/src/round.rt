// What a round is given, and what it ends with.
use cutset_store::{CutRecord, Index};
use precedence_tree::Node;
use project_net::{Project, Schedule};
use sched_base::List;
use search_log::{Fill, Origin, Row};

/// A front that waits to be visited, with the place of its row.
#[derive(Drop)]
pub struct WaitingNode {
    pub place: u32,
    pub node: Node,
}

/// A front that was expanded, with the place of its row.
#[derive(Drop)]
pub struct PlacedRecord {
    pub place: u32,
    pub known: CutRecord,
}

/// The fronts that were expanded in earlier rounds, and the place of the row of each.
#[derive(Drop)]
pub struct Records {
    pub index: Index,
    pub places: List<u32>,
}

/// The terms of a round.
#[derive(Clone, Copy, Debug, PartialEq, Eq)]
pub struct Terms {
    /// The number of the round, from 1.
    pub number: u32,
    /// How many nodes it may expand: at least 1, at most 32 in the first round and 4,096 in a later one.
    pub quota: u32,
    /// The least end so far, at most 1,290,000; none where there is no plan yet.
    pub best: Option<u32>,
}

/// A row that comes behind the others, with the origin of what it says.
#[derive(Clone, Copy, Debug, PartialEq, Eq)]
pub struct NewRow {
    pub row: Row,
    pub origin: Origin,
}

/// What a round ends with. Places are those of the table with the new rows behind it.
#[derive(Drop)]
pub struct RoundResult {
    /// The rows of the children of the nodes that were expanded, those of one node side by side.
    pub grown: List<NewRow>,
    /// What became of nodes, and when.
    pub fills: List<Fill>,
    /// The nodes that wait, in the order in which they are to be visited.
    pub left: List<WaitingNode>,
    /// The fronts that were expanded.
    pub made: List<PlacedRecord>,
    /// The least end now.
    pub best: Option<u32>,
    /// A schedule that ends at it, where it fell in this round.
    pub plan: Option<Schedule>,
    /// How many nodes were expanded.
    pub used: u32,
}
