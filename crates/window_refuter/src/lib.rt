//! Windows of the jobs for an end of the project, and steps that narrow them until one is empty or holds too much work: a
//! proof that no feasible schedule ends by then (Carlier and Pinson 1989; Baptiste, Le Pape and Nuijten 2001).
#![tactic(auto)]

mod bound;
mod candidates;
mod emptiness;
mod horizon;
mod interval;
mod judging;
pub mod laws;
mod least;
mod line;
mod narrowing;
mod numbers;
mod parsing;
mod propagation;
mod reading;
mod refutation;
mod refuting;
mod step;
mod supply;
mod window;
mod windows;
mod works;
mod writing;

pub use bound::{WindowBound, window_bound};
pub use candidates::narrowing_steps;
pub use line::BoundLine;
pub use parsing::parse_bound_line;
pub use refutation::{refute, refutes};
pub use step::{BoundStep, Judged};
pub use window::Window;
pub use windows::Windows;
pub use writing::{BoundText, bound_line};
