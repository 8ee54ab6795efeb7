//! Tests of texts and words: the outside, lines and contents of texts, projects that are read or made, and commands.
#![tactic(auto)]

#[cfg(test)]
mod calendars;
#[cfg(test)]
mod canonical;
#[cfg(test)]
mod commands;
#[cfg(test)]
mod contents;
#[cfg(test)]
mod lines;
#[cfg(test)]
mod made;
#[cfg(test)]
mod outside;
#[cfg(test)]
mod projects;
