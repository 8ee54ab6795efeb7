ghost use Rattle.std.specs.Prelude.{◌≡◌, ◌≤◌, IfSome, IfNone};
ghost use Rattle.rcpsp_model.specs.Project.{IsJob, IsMode};
ghost use Rattle.rcpsp_model.specs.Modes.{total_need as total_need_of};
ghost use Rattle.serial_scheme.specs.Rules.{HasMode, HasNoMode, IsLighter, weight_of};

use mode_rules::executable;
use project_net::Project;

/// Which of its executable modes each job takes, the lowest on a tie.
#[derive(Clone, Copy, Debug, PartialEq, Eq)]
pub enum ModeRule {
    /// The shortest.
    Shortest,
    /// The one that needs least of all nonrenewable resources together.
    Cheapest,
}

/// What a job in a mode needs of all nonrenewable resources together, 0 to 16,000,000.
fn total_need(project: &Project, job: u8, mode: u8) -> u32
    requires job { IsJob project.now job }
    requires mode { IsMode project.now job mode }
    ensures value { result ≡ total_need_of project.now job mode }
    ensures limit { result ≤ 16000000 }
{
    let mut total = 0;
    for resource in 0..project.nonrenewables() {
        total += project.need(job, mode, resource + 1);
    }
    total
}

/// The number by which the rule compares the modes of a job.
fn weight(project: &Project, rule: ModeRule, job: u8, mode: u8) -> u32
    requires job { IsJob project.now job }
    requires mode { IsMode project.now job mode }
    ensures { result ≡ weight_of rule project.now job mode }
{
    match rule {
        ModeRule::Shortest => project.duration(job, mode),
        ModeRule::Cheapest => total_need(project, job, mode),
    }
}

/// Of two modes the one that weighs less, the first on a tie.
fn lighter(project: &Project, rule: ModeRule, job: u8, best: Option<u8>, mode: u8) -> Option<u8>
    requires job { IsJob project.now job }
    requires best { IfSome best (IsMode project.now job) }
    requires mode { IsMode project.now job mode }
    ensures { IsLighter (weight_of rule project.now job) best mode result }
{
    match best {
        Some(other) if weight(project, rule, job, other) <= weight(project, rule, job, mode) =>
            best,
        _ => Some(mode),
    }
}

/// The mode that the job has by the rule, or `None` where none of its modes is executable.
pub fn mode_of(project: &Project, rule: ModeRule, job: u8) -> Option<u8>
    requires { IsJob project.now job }
    ensures some { IfSome result (HasMode rule project.now job) }
    ensures none { IfNone result (HasNoMode project.now job) }
{
    let mut best = None;
    for mode in 1..project.modes(job) + 1 {
        if executable(project, job, mode) {
            best = lighter(project, rule, job, best, mode);
        }
    }
    best
}
