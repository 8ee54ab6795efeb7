ghost use Rattle.std.specs.Prelude.{◌≡◌, ◌↔◌, IsTrue, OnOk, OnErr};
ghost use Rattle.scheduler.specs.Status.{status_number, IsTold};

use sched_base::Failed;

/// How a run ended.
#[derive(Clone, Copy, Debug, PartialEq, Eq)]
pub enum Status {
    /// The plan is optimal, the report or the bound accepted, or the text written.
    Done,
    /// No plan is feasible.
    Infeasible,
    /// The search ended at its limit.
    Limit,
    /// The report or the bound isn't accepted.
    ReportRefused,
    /// The words are no command.
    BadWords,
    /// The project text isn't read.
    BadProject,
    /// A call of the shelf failed.
    ReadFault,
    /// A call of the sink failed.
    WriteFault,
    /// Memory was refused.
    NoMemory,
}

impl Status {
    /// The number that the program ends with, 0 to 8.
    pub fn number(self) -> u8
        ensures { result ≡ status_number self }
    {
        match self {
            Status::Done => 0,
            Status::Infeasible => 1,
            Status::Limit => 2,
            Status::ReportRefused => 3,
            Status::BadWords => 4,
            Status::BadProject => 5,
            Status::ReadFault => 6,
            Status::WriteFault => 7,
            Status::NoMemory => 8,
        }
    }
    /// Whether an answer was told whole.
    fn is_told(self) -> bool
        ensures { IsTrue result ↔ IsTold self }
    {
        !matches!(
            self,
            Status::ReadFault | Status::WriteFault | Status::NoMemory
        )
    }

    /// How the program ends, where what was told was handed on or not.
    pub fn after(self, handed_on: Result<(), Failed>) -> Status
        ensures whole { OnOk handed_on (result ≡ self) }
        ensures cut_off { OnErr handed_on (IsTold self → result ≡ Status.WriteFault) }
        ensures stopped { (IsTold self → ⊥) → result ≡ self }
    {
        match handed_on {
            Err(Failed) if self.is_told() => Status::WriteFault,
            _ => self,
        }
    }
}
