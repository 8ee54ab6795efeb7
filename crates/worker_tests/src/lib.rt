//! Tests of the search: the table of its rows and the log that is told of it, the visits of a worker, what becomes of a round,
//! and searches by several workers.
#![tactic(auto)]

#[cfg(test)]
mod nodes;
#[cfg(test)]
mod records;
#[cfg(test)]
mod refusing;
#[cfg(test)]
mod rounds;
#[cfg(test)]
mod searches;
#[cfg(test)]
mod tables;
#[cfg(test)]
mod threads;
#[cfg(test)]
mod visits;
#[cfg(test)]
mod workers;
