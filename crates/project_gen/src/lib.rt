//! Projects that are made from a seed, so that each trial can be made again anywhere.
#![tactic(auto)]

mod drafting;
mod drawing;
pub mod laws;
mod making;
mod needs;

pub use making::make;
