//! Small projects that are worked out by hand, for tests and for nothing else: those of the crates above, and those of
//! `project_net`, which stand here.
#![tactic(auto)]

mod drafting;
mod fronts;
mod many;
#[cfg(test)]
mod oracle_tests;
#[cfg(test)]
mod schedule_tests;
mod small;
#[cfg(test)]
mod tests;

pub use drafting::{DraftRow, ModeRow, WorkedProject, build, build_draft, draft};
pub use fronts::{EntryRow, entries};
pub use many::{EIGHTEEN_JOBS, EIGHTEEN_JOBS_TIGHT};
pub use small::{
    AFTER_A_BREAK, ALL_AT_ONCE, ASKS_TOO_MUCH, BUDGETS_ALONE, LATE_BREAK, LONGER_MODE,
    NEEDS_DIFFER, NO_LENGTH, ONE_LONG_JOB, SHORT_OR_CHEAP, THREE_IN_TURN, TWINS, TWO_IN_TURN,
};
