//! The table of a search: rows that stand for the nodes of the tree and are filled in any order, and the log in preorder
//! that is told of them.
#![tactic(auto)]

mod blocks;
mod closing;
mod examples;
mod law;
mod row;
mod table;
mod telling;
mod walk;

pub use blocks::Blocks;
pub use closing::{least_left, verdict};
pub use examples::worked_tables;
pub use law::{filled, growing, lean, told_log, whole};
pub use row::{Fill, Origin, Row, RowFate};
pub use table::{Table, fill};
pub use telling::{Told, log_of};
pub use walk::preorder;
