use rcpsp_model::Verdict;

/// The three kinds of verdict.
#[derive(Clone, Copy, Debug, PartialEq, Eq)]
pub enum Kind {
    Optimal,
    Infeasible,
    Limit,
}

/// Which line of a report is wanted next, with what the lines before it say.
#[derive(Clone, Copy, Debug, PartialEq, Eq)]
pub enum Stage {
    /// The first line.
    Title,
    /// The line of the verdict.
    Kind,
    /// The line of the duration, in periods.
    Duration(Kind),
    /// The line of the lower bound, in periods, after the duration if there is one.
    Lower(Kind, Option<u32>),
    /// The line of the next job.
    Job(Verdict),
    /// The line that says whether the log follows.
    Flag(Verdict),
    /// A line of the log, or the last line.
    Line(Verdict),
    /// Nothing: the last line has come.
    Ended(Verdict),
}
