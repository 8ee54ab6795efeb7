/// What became of a front of the search tree: it was expanded, or why it wasn't.
#[derive(Clone, Copy, Debug, PartialEq, Eq)]
pub enum Fate {
    /// All its children follow.
    Expanded,
    /// All jobs are placed, and it ends no earlier than the best schedule.
    Leaf,
    /// Its tail bound is no less than the duration of the best schedule.
    TailBound,
    /// Its work bound on this renewable resource is no less than the duration of the best schedule.
    WorkBound(u8),
    /// The needs would exceed the budget of this nonrenewable resource.
    Budget(u8),
    /// The mode asks more of this renewable resource than there is.
    Capacity(u8),
    /// This other mode of the job takes no more of anything (Sprecher, Hartmann and Drexl 1997).
    Worse(u8),
    /// The front of this line of the log, from 1, dominates it (Demeulemeester and Herroelen 1992).
    Cutset(u32),
    /// It was left open at the node limit; this is its lower bound.
    Left(u32),
}
