use sched_base::List;

/// A mode of a job (Talbot 1982): how long the job runs in it, and what it takes.
#[derive(Drop)]
pub struct Mode {
    /// The periods that the job runs, 0 to 10,000.
    pub duration: u32,
    /// What it asks of each renewable resource in each of its periods, 0 to 1,000,000.
    pub requests: List<u32>,
    /// What it needs of each nonrenewable resource in all, 0 to 1,000,000.
    pub needs: List<u32>,
}

/// A row of a project's calendar: in the periods from the first up to `until` there is only so much of a renewable resource,
/// as on a holiday or while a machine is in repair.
#[derive(Clone, Copy, Debug, PartialEq, Eq)]
pub struct CalRow {
    /// The number of the renewable resource, from 1.
    pub resource: u8,
    /// The first period, 0 to 9,999.
    pub begin: u32,
    /// The first period after, 1 to 10,000.
    pub until: u32,
    /// What there is of the resource in each of these periods: 0 to its capacity.
    pub capacity: u32,
}

/// The mode and the first period of a job that the place in a list names.
#[derive(Clone, Copy, Debug, PartialEq, Eq)]
pub struct Placing {
    /// The number of the mode, from 1.
    pub mode: u8,
    /// The first period, from 0.
    pub start: u32,
}

/// A job in one of its modes, with its first period.
#[derive(Clone, Copy, Debug, PartialEq, Eq)]
pub struct Entry {
    /// The number of the job, from 1.
    pub job: u8,
    /// The number of the mode, from 1.
    pub mode: u8,
    /// The first period, from 0.
    pub start: u32,
}

/// Why no front comes of an eligible job in one of its modes.
#[derive(Clone, Copy, Debug, PartialEq, Eq)]
pub enum Shut {
    /// The mode asks more of this renewable resource than there is.
    NoCapacity(u8),
    /// The needs would exceed the budget of this nonrenewable resource.
    NoBudget(u8),
    /// This other mode takes no more.
    Inefficient(u8),
}

/// What a front leads to by one more job.
#[derive(Drop)]
pub enum Child<Front> {
    /// The front with the job at its earliest start.
    Placed(Front),
    /// No front, and why.
    Shut { job: u8, mode: u8, why: Shut },
}

/// What is known of the least duration of all feasible schedules.
#[derive(Clone, Copy, Debug, PartialEq, Eq)]
pub enum Verdict {
    /// The least duration.
    Optimal { duration: u32 },
    /// No schedule is feasible.
    Infeasible,
    /// No feasible schedule ends before the lower bound. The duration is that of the best schedule known.
    Limit { duration: Option<u32>, lower: u32 },
}
