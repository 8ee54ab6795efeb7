//! What placed jobs take of the renewable resources in each period, and where one more job fits beside them.
#![tactic(auto)]

mod adding;
mod profile;
mod shortage;
mod steps;

pub use profile::Profile;
pub use rcpsp_model::Entry;
