/// The way in which a pass moves the jobs.
#[derive(Clone, Copy, Debug, PartialEq, Eq)]
pub enum Direction {
    /// Each as late as it can stand, from the one that is done last on.
    Backward,
    /// Each as early as it can stand, from the one that starts first on.
    Forward,
}
