ghost use Rattle.std.specs.Prelude.{◌≡◌};
ghost use Rattle.log_checker.specs.Reasons.{number_of};

/// Which rule a report breaks first.
#[derive(Clone, Copy, Debug, PartialEq, Eq)]
pub enum Reason {
    /// A line has none of the forms that may stand there.
    BadLine,
    /// A line of the log isn't that of the next child: another job, mode or start, or none where one is wanted.
    WrongChild,
    /// A line of the log has a fate that its front doesn't allow.
    WrongFate,
    /// A job line has no mode of its job, or all of them are no feasible schedule of the duration.
    BadSchedule,
    /// The duration or the lower bound isn't one that the verdict allows.
    BadVerdict,
    /// A line of the log cites none that serves it.
    BadCitation,
    /// The text ends before its last line.
    TextEnds,
    /// Something stands behind the log, or behind the last line.
    LinesLeft,
    /// More lines than 100,000 are expanded.
    TooManyExpanded,
}

impl Reason {
    /// The number that is printed, 1 to 9.
    pub fn number(self) -> u8
        ensures { result ≡ number_of self }
    {
        match self {
            Reason::BadLine => 1,
            Reason::WrongChild => 2,
            Reason::WrongFate => 3,
            Reason::BadSchedule => 4,
            Reason::BadVerdict => 5,
            Reason::BadCitation => 6,
            Reason::TextEnds => 7,
            Reason::LinesLeft => 8,
            Reason::TooManyExpanded => 9,
        }
    }
}
