//! What a log says: the nodes of its lines, when a report holds, and that what its verdict claims is then true. These are
//! definitions over plain lists, and laws, each as the contract of a function that does nothing.
#![tactic(auto)]

mod examples;
mod lines;
mod refusal;
mod truth;
mod walk;

pub use examples::{after_a_break, citations, in_turn, letters, needed_points, refusals};
pub use lines::{gap_log, joined, one_line};
pub use refusal::first_refusal;
pub use truth::{late_front, true_claim};
pub use walk::{few_lines, line_rules, next_line};
