//! A search in rounds over the table of its lines, between its rounds: how it begins, on what terms a round runs, what becomes of
//! what a round ends with, and, once no more rounds are to run, what was found, with its log or without. A round itself is run
//! elsewhere.
#![tactic(auto)]

mod best;
mod closing;
mod found;
mod going;
mod law;
mod round;

pub use best::Best;
pub use found::{Ended, Found, found_gap};
pub use going::Search;
pub use law::told_report;
pub use round::{NewRow, PlacedRecord, Records, RoundResult, Terms, WaitingNode};
