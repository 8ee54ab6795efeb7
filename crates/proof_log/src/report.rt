use project_net::Schedule;
use rcpsp_model::Verdict;
use sched_base::{Fate, List};

/// A node of the search tree and what became of it. The root has job 0, mode 0 and no start.
#[derive(Clone, Copy, Debug, PartialEq, Eq)]
pub struct LogLine {
    /// The number of the job placed last, from 1.
    pub job: u8,
    /// The number of its mode, from 1.
    pub mode: u8,
    /// Its first period; none where the child is shut.
    pub start: Option<u32>,
    /// What became of the node.
    pub fate: Fate,
}

/// The lines of a search tree in preorder.
pub type Log = List<LogLine>;

/// What a search found: a verdict, the schedule that has the duration, and the log unless it is left out.
#[derive(Drop)]
pub struct Report {
    pub verdict: Verdict,
    pub best: Option<Schedule>,
    pub log: Option<Log>,
}
