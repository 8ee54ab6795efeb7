//! The words of the program: commands with their options, and the first word that can't stand.
#![tactic(auto)]

mod command;
mod number;
mod options;
mod words;

pub use command::{BadWords, Command, Recipe, Request};
pub use words::parse_words;
