//! Tests of the tree of a search: fronts and their children, bounds, and which front makes another needless.
#![tactic(auto)]

#[cfg(test)]
mod bounds;
#[cfg(test)]
mod dominance;
#[cfg(test)]
mod fronts;
#[cfg(test)]
mod nodes;
