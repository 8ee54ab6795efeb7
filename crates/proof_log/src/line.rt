/// A line of a report.
#[derive(Clone, Copy, Debug, PartialEq, Eq)]
pub enum ReportLine {
    /// The first line, with the version.
    Title,
    /// The duration is the least.
    Optimal,
    /// No schedule is feasible.
    Infeasible,
    /// The search ended at the node limit.
    Limit,
    /// The duration of the schedule in periods, or `-`.
    Duration(Option<u32>),
    /// The lower bound in periods, or `-`.
    Lower(Option<u32>),
    /// A job, its mode and its first period.
    Job(u32, u32, u32),
    /// The log follows.
    LogYes,
    /// There is no log.
    LogNo,
    /// A line of the log.
    Log(LogWords),
    /// The last line.
    End,
}

/// The words of a line of the log; `None` stands for `-`.
#[derive(Clone, Copy, Debug, PartialEq, Eq)]
pub struct LogWords {
    /// The number of the job, from 1, or `-` for the root.
    pub job: Option<u32>,
    /// The number of the mode, from 1, or `-` for the root.
    pub mode: Option<u32>,
    /// The first period, or `-` for the root and where the child is shut.
    pub start: Option<u32>,
    /// The ASCII letter of the fate.
    pub letter: u8,
    /// The number behind the letter; 0 for E, L and T, which have none.
    pub number: u32,
}
