//! Tests of what workers share: the table of a round, rows of records, and deques of nodes.
#![tactic(auto)]

#[cfg(test)]
mod deques;
#[cfg(test)]
mod rows;
#[cfg(test)]
mod table;
