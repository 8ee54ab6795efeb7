/// Why a report isn't accepted.
#[derive(Clone, Copy, Debug, PartialEq, Eq)]
pub enum Refused {
    /// A line of the report, from 1, breaks a rule, for a reason of a number from 1 to 9.
    Report { line: u32, reason: u8 },
    /// Memory was refused.
    NoMemory,
}
