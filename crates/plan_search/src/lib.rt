//! Plans worth starting from: tries that change the modes and the order of the jobs together (Hartmann 2001, "Project
//! scheduling with multiple modes: a genetic algorithm"; Van Peteghem and Vanhoucke 2010, "A genetic algorithm for the
//! preemptive and non-preemptive multi-mode resource-constrained project scheduling problem"), each with its plan pulled
//! together by a pass back and one forth (Valls, Ballestin and Quintanilla 2005, "Justification and RCPSP: a technique that
//! pays").
#![tactic(auto)]

mod draws;
mod improving;
mod modes;
mod places;
mod room;
mod scheme;
mod tries;

pub use improving::improve;
