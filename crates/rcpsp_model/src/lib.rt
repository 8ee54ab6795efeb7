//! What a reader has to believe: the problem, schedules, fronts, bounds, dominance and plans, as definitions over
//! plain lists; and the laws that hold of them for all projects, each as the contract of a function that does nothing.
#![tactic(auto)]

mod bounds;
mod examples;
mod parts;
mod plan;
mod project;
mod tree;

pub use bounds::{
    budget_gap, job_tail, lower_bound, one_bound, tail_bound, work_bound, work_quotient,
};
pub use examples::{after_a_break, needs_differ, short_or_cheap, two_in_turn, zero_lengths};
pub use parts::{CalRow, Child, Entry, Mode, Placing, Shut, Verdict};
pub use plan::{first_plan, no_executable_mode, placed_in_turn, serial_plan};
pub use project::{calendar, capacities, job_rank, same_facts};
pub use tree::{children, dominance, eligible, exchange, front_limits, leaf, one_list, root};
