use node_sources::NodeSource;
use search_log::Fill;
use search_rounds::{NewRow, PlacedRecord};

/// What a worker has done in a round so far. A place below [`node_sources::ROOM`] is that of a row of the table on which the
/// round began; the new rows of a worker have the places from this number times its own on.
#[derive(Drop)]
pub(crate) struct Part {
    /// The rows of the children of the nodes that it expanded.
    pub grown: Vec<NewRow>,
    /// What became of the nodes that it visited, in order.
    pub fills: Vec<Fill>,
    /// The numbers, from 0, of those fills that cite a live record, in order. The row of such a record is known once all
    /// workers have ended; until then the fill cites the first row.
    pub live: Vec<u32>,
    /// The fronts that it expanded, in order.
    pub made: Vec<PlacedRecord>,
    /// Where it takes its next node.
    pub source: NodeSource,
}
