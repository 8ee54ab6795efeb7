//! The kept lines of a project text, their words, and words that are numbers.
#![tactic(auto)]

pub mod laws;
mod lexer;
mod numbers;
mod words;

pub use lexer::{LexFault, MOST_BYTES, lex};
pub use numbers::number_up_to;
pub use words::Words;
