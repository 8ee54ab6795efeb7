/// Which line of the text of a bound is wanted next.
#[derive(Clone, Copy, Debug, PartialEq, Eq)]
pub enum Stage {
    /// The first line.
    Title,
    /// The line of the bound.
    Bound,
    /// A step in the windows that the steps before it leave.
    Step,
    /// The last line: the steps have shown the bound, which is 0 to 1,290,001.
    End(u32),
    /// Nothing: the last line has come.
    Ended(u32),
}
