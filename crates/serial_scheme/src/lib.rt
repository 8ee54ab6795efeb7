//! The first plan: the serial schedule generation scheme by priority of the greatest tail, under two rules for the mode
//! of each job (Kelley 1963; Kolisch 1996).
#![tactic(auto)]

mod budgets;
mod mode_rule;
mod plan;
mod priority;
mod scheme;

pub use plan::first_plan;
