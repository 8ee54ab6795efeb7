//! Dominance between fronts, after the cutset rule of Demeulemeester and Herroelen (1992): records of fronts, whether a
//! record makes a node needless, and an index of records by their jobs.
#![tactic(auto)]

mod dominance;
mod facts;
mod finishes;
mod index;
mod judging;
mod line;
mod orderly;
mod record;
mod row;
mod table;
mod usage;

pub use dominance::{dominates, would_dominate};
pub use index::{Found, Index};
pub use record::CutRecord;
pub use table::SetPlace;
