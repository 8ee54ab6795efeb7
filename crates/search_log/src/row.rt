use rcpsp_model::Shut;

/// What became of the node of a row. Places are numbers of rows, from 0.
#[derive(Clone, Copy, Debug, PartialEq, Eq)]
pub enum RowFate {
    /// Nothing yet: the node waits.
    Open,
    /// It was expanded. Its children, 1 to 512, have the rows from the place `first` on, in their order.
    Expanded { count: u16, first: u32 },
    /// All jobs are placed, and it ends no earlier than the best schedule.
    Leaf,
    /// Its tail bound is no less than the duration of the best schedule.
    TailBound,
    /// Its work bound on this renewable resource is no less than the duration of the best schedule.
    WorkBound(u8),
    /// The front of the row at this place dominates it.
    Cited(u32),
    /// It was left open at the node limit; this is its lower bound.
    Left(u32),
    /// It has no front.
    Shut(Shut),
}

/// A row of the table: a node of the tree, by the job that leads to it, and what became of it. The root has job 0, mode 0
/// and no start.
#[derive(Clone, Copy, Debug, PartialEq, Eq)]
pub struct Row {
    /// The first period of the job; none for the root, and where the node has no front.
    pub start: Option<u32>,
    /// What became of the node.
    pub fate: RowFate,
    /// The number of the job placed last, from 1.
    pub job: u8,
    /// The number of its mode, from 1.
    pub mode: u8,
}

/// When a node was visited, and by whom.
#[derive(Clone, Copy, Debug, PartialEq, Eq)]
pub struct Origin {
    /// The number of the round, from 1.
    pub round: u32,
    /// The number of the worker, from 1; 0 where the node was closed after the last round.
    pub worker: u32,
    /// The number of the visit among those of the worker in the round, from 1.
    pub turn: u32,
}

/// What became of the node at a place, and when.
#[derive(Clone, Copy, Debug, PartialEq, Eq)]
pub struct Fill {
    pub place: u32,
    pub fate: RowFate,
    pub origin: Origin,
}

const _: () = prove!(size_of::<Row>() == 20);

const _: () = prove!(size_of::<Origin>() == 12);
