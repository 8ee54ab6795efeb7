//! Workers that run the rounds of a search side by side: each visits nodes in turn, first its own children, then what it was dealt,
//! and then what it takes from others; what they did is put together and joins the table of the search. Rounds go on until the search has ended.
#![tactic(auto)]

mod citing;
mod crew;
mod dealing;
mod expanding;
mod gathering;
mod member;
mod part;
mod preorder;
mod searching;
mod work;

pub use crew::round;
pub use searching::{search, search_from};
