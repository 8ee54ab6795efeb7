//! The judge of a report: whoever distrusts the search needs only this. It takes the bytes of a report in any pieces, and says
//! yes exactly where its log holds.
#![tactic(auto)]

mod allowing;
mod checker;
mod choices;
mod citations;
mod course;
mod feeding;
mod finishing;
mod heading;
mod judging;
mod laws;
mod reason;
mod refused;
mod said;
mod stage;
mod walk;

pub use checker::Checker;
pub use laws::{accepted_text, exact_refusal, one_outcome, stays_refused, true_verdict};
pub use reason::Reason;
pub use refused::Refused;
pub use stage::{Kind, Stage};
