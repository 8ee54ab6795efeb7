ghost use Rattle.std.specs.Prelude.{◌≡◌, ℕ, ◌≤◌, List, [], ◌∷◌, ◌++◌, IfOk, OnErr};
ghost use Rattle.rcpsp_model.specs.Project.{Project as ProjectValue, IsNonrenewable};
ghost use Rattle.project_net.specs.Budget.{with_budget};
ghost use Rattle.project_net.specs.Oracle.{IsTrueOf, HasSpent};

use crate::project::Project;
use sched_base::NoMemory;

/// What is known of the ends of a project's feasible schedules, in periods.
#[derive(Clone, Copy, Debug, PartialEq, Eq)]
pub enum OracleAnswer {
    /// One ends then, and none earlier.
    Least(u32),
    /// No schedule is feasible.
    Nothing,
    /// None ends before; whether one ends then isn't known.
    Unknown(u32),
}

/// A question to an oracle, with its answer.
#[derive(Clone, Copy, Debug, PartialEq, Eq)]
pub struct Reply {
    /// The number of the nonrenewable resource, from 1.
    pub resource: u8,
    /// The budget of it that was asked about, 0 to 1,000,000.
    pub budget: u32,
    /// What is so of the project with that budget.
    pub answer: OracleAnswer,
}

/// One who knows the least ends of a project's feasible schedules, or searches for them.
pub trait Oracle {
    ghost use Rattle.project_net.specs.declared.oracle.Reply.{Reply};

    /// The one project that is asked about.
    ghost about: { Self → ProjectValue };

    /// The numbers that bound its searches.
    ghost terms: { Self → List ℕ };

    /// What was asked and answered, in order.
    ghost asked: { Self → List Reply };

    /// How many searches were spent without an answer, up to the end of a `u64`.
    ghost spent: { Self → ℕ };

    /// The least end of a feasible schedule of the project with this budget of the resource, 0 to 1,000,000.
    /// `NoMemory` is no answer.
    fn least(
        &mut self,
        project: &Project,
        resource: u8,
        budget: u32,
    ) -> Result<OracleAnswer, NoMemory>
        requires about { project.now ≡ about self.old }
        requires resource { IsNonrenewable project.now resource }
        requires budget { budget ≤ 1000000 }
        ensures answer { IfOk result (IsTrueOf (with_budget project.now resource budget)) }
        ensures unknown { IfOk result (HasSpent (spent self.old) (spent self.new)) }
        ensures asked { IfOk result
            (λ answer. asked self.new ≡ asked self.old ++ record { resource = resource; budget = budget; answer = answer } ∷ []) }
        ensures kept { OnErr result (asked self.new ≡ asked self.old) }
        ensures about { about self.new ≡ about self.old }
        ensures terms { terms self.new ≡ terms self.old }
        ensures later { spent self.old ≤ spent self.new };
}
