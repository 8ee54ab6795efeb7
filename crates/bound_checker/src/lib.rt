//! The text of a lower bound on the ends of all feasible schedules, with the steps that show it, and the judge of such a text:
//! whoever distrusts the bound needs only this. It takes the bytes of a text in any pieces, and holds no list of steps.
#![tactic(auto)]

mod checker;
mod course;
mod feeding;
mod judging;
mod laws;
mod stage;
mod writing;

pub use checker::{BoundChecker, BoundRefusal, MOST_TEXT};
pub use laws::{accepted_bound, fed_bytes, one_outcome, stays_refused};
pub use stage::Stage;
pub use writing::bound_text;
