//! The precedence tree (Patterson, Slowinski, Talbot and Weglarz 1989; Sprecher 1994): nodes, which stand for fronts,
//! the children of a node, and the schedule of a leaf.
#![tactic(auto)]

mod active;
mod base;
mod branch;
mod breaks;
mod budgets;
mod causes;
mod expanding;
mod following;
mod frontier;
mod leaf;
mod needs;
mod node;
mod starts;
mod tails;
mod works;

pub use active::Active;
pub use base::{Base, Expansion};
pub use branch::{Children, child, child_of, children, children_of, eligible};
pub use expanding::expand;
pub use following::{follow, node_of};
pub use leaf::{is_leaf, schedule};
pub use needs::Needs;
pub use node::Node;
pub use rcpsp_model::{Child, Entry, Shut};
pub use starts::last_of;
