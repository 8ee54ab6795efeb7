//! The canonical text of a project is read, and gives the project.
#![tactic(auto)]

pub mod laws;
