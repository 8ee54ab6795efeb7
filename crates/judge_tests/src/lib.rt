//! Tests of the judges: windows and what refutes an end, the text of a bound, reports, and their text.
#![tactic(auto)]

#[cfg(test)]
mod bounds;
#[cfg(test)]
mod expanded;
#[cfg(test)]
mod reports;
#[cfg(test)]
mod texts;
#[cfg(test)]
mod windows;
