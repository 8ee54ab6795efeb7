use crate::stage::Stage;
use window_refuter::Windows;

/// What is kept of the whole lines of a text.
#[derive(Drop)]
pub struct Course {
    /// Which line is wanted next.
    pub stage: Stage,
    /// Between the line of the bound and the last line: the windows that the steps leave.
    pub windows: Windows,
    /// The number of the line that is wanted next, from 1.
    pub number: u32,
}
