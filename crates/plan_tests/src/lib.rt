//! Tests of plans: modes, what is in use in each period, the first plan, plans that are pulled together, and plans from tries.
#![tactic(auto)]

#[cfg(test)]
mod first_plans;
#[cfg(test)]
mod justified;
#[cfg(test)]
mod modes;
#[cfg(test)]
mod plans;
#[cfg(test)]
mod tries;
#[cfg(test)]
mod usage;
