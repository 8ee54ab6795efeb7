//! What the workers of one round of a parallel search tell each other while it runs: each worker has a row of cells, sets
//! them in order, once each, and publishes each by its count on the round's table.
//!
//! Only [`Rows::new`] takes memory, and no call waits.
#![tactic(auto)]

mod cells;
mod notes;
mod rows;

pub use cells::{Cells, OnceCells};
pub use notes::agree;
pub use once_cell::race::Note;
pub use rows::{Look, Rows};
