//! What the program does with its words: it solves a project, judges a report, prints, plans and bounds projects, and judges a
//! bound, over any shelf that texts are read from and any sink that bytes are written to.
#![tactic(auto)]

mod answer;
mod answering;
mod bounding;
mod feeding;
mod judging;
mod laws;
mod plan_text;
mod planning;
mod reading;
mod running;
mod solving;
mod status;
mod stop;
mod task;
mod tell;
mod verifying;

pub use answer::{Answer, BoundJudgement, Judgement, Outcome, Trial};
pub use laws::{own_report_accepted, same_trial};
pub use running::run;
pub use status::Status;
