//! Project texts: the project that a text is, or the first rule that the text breaks, with its line.
#![tactic(auto)]

mod cycle;
mod drafting;
pub mod laws;
mod reader;

pub use psplib_layout::{Fault, ReadError, Refusal};
pub use reader::read_project;
