//! The choices of an expanded front, one after another: by ascending job, and then by ascending mode.

ghost use Rattle.std.specs.Prelude.{◌≡◌, ◌+◌, ◌≤◌, [], ◌∷◌, MatchOption};
ghost use Rattle.rcpsp_model.specs.Project.{IsJob, IsMode};
ghost use Rattle.rcpsp_model.specs.Tree.{IsEligible};
ghost use Rattle.precedence_tree.specs.Base.{IsBaseOf};
ghost use Rattle.log_checker.specs.Choices.{choices_above, choices_from, IsNextChoice};

use precedence_tree::Expansion;
use project_net::Project;

/// An eligible job in one of its modes.
#[derive(Clone, Copy, Debug, PartialEq, Eq)]
pub struct Turn {
    /// The number of the job, from 1.
    pub job: u8,
    /// The number of the mode, from 1.
    pub mode: u8,
}

/// The first choice by a job above a number.
pub fn first_above(project: &Project, front: &Expansion, job: u8) -> Option<Turn>
    requires base { IsBaseOf project.now front.now }
    requires job { job ≤ 128 }
    ensures { IsNextChoice project.now front.now.front (choices_above project.now front.now.front job) result }
{
    project.known();
    match front.base().eligible.next_after(job) {
        Some(next) => Some(Turn {
            job: next.0,
            mode: 1,
        }),
        None => None,
    }
}

/// The choice after one of a front.
pub fn next_after(project: &Project, front: &Expansion, turn: Turn) -> Option<Turn>
    requires base { IsBaseOf project.now front.now }
    requires eligible { IsEligible project.now front.now.front turn.job }
    requires mode { IsMode project.now turn.job turn.mode }
    ensures { IsNextChoice project.now front.now.front (choices_from project.now front.now.front turn.job (turn.mode + 1)) result }
{
    project.known();
    if turn.mode < project.modes(turn.job) {
        return Some(Turn {
            job: turn.job,
            mode: turn.mode + 1,
        });
    }
    first_above(project, front, turn.job)
}
