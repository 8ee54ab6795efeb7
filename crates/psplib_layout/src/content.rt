use rcpsp_model::{CalRow, Mode};
use sched_base::List;

/// The numbers of a header.
#[derive(Clone, Copy, Debug, PartialEq, Eq)]
pub struct Header {
    /// How many jobs there are, 1 to 128.
    pub jobs: u32,
    /// How many renewable resources, 0 to 16.
    pub renewables: u32,
    /// How many nonrenewable resources, 0 to 16.
    pub nonrenewables: u32,
}

/// A job's row of the precedence part.
#[derive(Drop)]
pub struct JobRow {
    /// How many modes the job has, 1 to 16.
    pub modes: u32,
    /// Its successors, 1 to the number of jobs each, as the text lists them.
    pub successors: List<u32>,
}

/// The numbers of the availabilities part, 0 to 1,000,000 each.
#[derive(Drop)]
pub struct Amounts {
    /// The capacity of each renewable resource.
    pub capacities: List<u32>,
    /// The budget of each nonrenewable resource.
    pub budgets: List<u32>,
}

/// What a project text says.
#[derive(Drop)]
pub struct Content {
    /// The header.
    pub header: Header,
    /// A row for each job.
    pub rows: List<JobRow>,
    /// The modes of each job.
    pub modes: List<List<Mode>>,
    /// The capacities and the budgets.
    pub amounts: Amounts,
    /// The rows of the calendar.
    pub calendar: List<CalRow>,
}
