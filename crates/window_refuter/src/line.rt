use crate::step::BoundStep;

/// A line of the text of a bound.
#[derive(Clone, Copy, Debug, PartialEq, Eq)]
pub enum BoundLine {
    /// The first line, with the version.
    Title,
    /// The bound in periods.
    Bound(u32),
    /// A step: its letter, and its numbers.
    Step(BoundStep),
    /// The last line.
    End,
}
