//! Justified plans: the jobs of a plan are moved as late as they can stand, then as early as they can, until the end falls no
//! more (Valls, Ballestin and Quintanilla 2005, "Justification and RCPSP: a technique that pays").
#![tactic(auto)]

mod changes;
mod direction;
mod justified;
mod laws;
mod moving;
mod order;
mod passes;
mod places;
mod room;
mod search;

pub use justified::{backward, forward, justify};
pub use laws::{fits_beside, one_improved, one_pass};
