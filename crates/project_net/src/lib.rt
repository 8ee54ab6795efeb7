//! Projects: jobs with their modes and their order, what there is of each resource, and schedules of them.
#![tactic(auto)]

mod appending;
mod causes;
mod chains;
mod draft;
mod feasible;
mod flatten;
mod horizon;
mod least;
mod mode_table;
mod network;
mod oracle;
mod order;
mod prepared;
mod print;
mod project;
mod reach;
mod refusal;
mod schedule;
mod stretches;

pub use draft::{BuildRefusal, Draft, DraftJob};
pub use oracle::{Oracle, OracleAnswer, Reply};
pub use print::print_project;
pub use project::Project;
pub use rcpsp_model::{CalRow, Mode, Placing};
pub use refusal::one_first_fault;
pub use schedule::Schedule;
pub use stretches::{Stretch, place_at};
