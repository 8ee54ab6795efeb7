//! Plain sums over whole fronts, and tests that what is kept of a front gives the same children, bounds and dominance. For
//! tests alone: nothing here is used by another crate.
#![tactic(auto)]

#[cfg(test)]
mod bounds;
#[cfg(test)]
mod children;
#[cfg(test)]
mod dominance;
#[cfg(test)]
mod facts;
#[cfg(test)]
mod fronts;
#[cfg(test)]
mod large;
#[cfg(test)]
mod subjects;
#[cfg(test)]
mod tests;
#[cfg(test)]
mod walks;
