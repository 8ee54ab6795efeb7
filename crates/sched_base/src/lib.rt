//! What every crate stands on: jobs, sets of jobs, lists, and the outside.
#![tactic(auto)]

mod fate;
mod faults;
mod job;
mod job_set;
mod list;
mod listed;
mod mem_shelf;
mod mem_sink;
mod outside;
mod sure_shelf;
mod sure_sink;
mod texts;
mod writing;

pub use fate::Fate;
pub use faults::{Failed, NoMemory};
pub use job::Job;
pub use job_set::JobSet;
pub use list::List;
pub use mem_shelf::MemShelf;
pub use mem_sink::MemSink;
pub use outside::{Gate, OpenGate, Shelf, Sink};
pub use sure_shelf::SureShelf;
pub use sure_sink::SureSink;
pub use writing::write_whole;
