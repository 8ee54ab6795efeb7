//! The layout of a project text: what each part is, and reading it word by word and line by line.
#![tactic(auto)]

mod availabilities;
mod calendar;
mod content;
mod fault;
mod header;
mod job_line;
pub mod laws;
mod numbers;
mod place;
mod precedence;
mod requests;
mod rule;
mod source;
mod text;
mod title;

pub use content::{Amounts, Content, Header, JobRow};
pub use fault::{Fault, ReadError, Refusal};
pub use numbers::{CAP, number};
pub use place::Place;
pub use rule::Rule;
pub use source::Source;
pub use text::read_content;
