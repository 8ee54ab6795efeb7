//! The report of a search: what it says, its text, and the lines of the text.
#![tactic(auto)]

pub mod laws;
mod letter;
mod line;
mod line_reader;
mod line_text;
mod lines;
mod parsing;
mod reading;
mod report;
mod words;
mod writing;

pub use line::{LogWords, ReportLine};
pub use line_reader::{LONGEST_LINE, LineReader, LineStep};
pub use lines::lines_of;
pub use parsing::parse_line;
pub use rcpsp_model::Verdict;
pub use report::{Log, LogLine, Report};
pub use writing::write_report;
