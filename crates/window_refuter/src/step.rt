/// A step of a proof that no feasible schedule ends by some period. Jobs and resources count from 1.
#[derive(Clone, Copy, Debug, PartialEq, Eq)]
pub enum BoundStep {
    /// `Head(i, j)`: j comes after i, so it starts no earlier than i can finish.
    Head(u8, u8),
    /// `Tail(i, j)`: i comes before j, so it finishes no later than j has to start.
    Tail(u8, u8),
    /// `Disjoint(i, j, k)`: i and j ask for more of resource k than there is, and j can't come first, so i does.
    Disjoint(u8, u8, u8),
    /// `Work(k, a, b)`: the jobs that have to run within the periods from a up to b take more of resource k than there is in
    /// these.
    Work(u8, u32, u32),
    /// `Empty(j)`: the window of j is shorter than the job.
    Empty(u8),
}

/// What becomes of a step.
#[derive(Clone, Copy, Debug, PartialEq, Eq)]
pub enum Judged {
    /// It isn't allowed in the windows.
    NotAllowed,
    /// It is allowed, and has narrowed a window.
    Further,
    /// It is allowed, and shows that the windows hold no feasible schedule.
    Contradiction,
}
