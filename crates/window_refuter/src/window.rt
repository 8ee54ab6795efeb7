/// When a job may run: it starts no earlier than the one period, and is over by the other.
#[derive(Clone, Copy, Debug, PartialEq, Eq)]
pub struct Window {
    /// The earliest start: the first period of the job is this one or a later one.
    pub earliest_start: u32,
    /// The latest finish: the first period after the job is this one or an earlier one.
    pub latest_finish: u32,
}
