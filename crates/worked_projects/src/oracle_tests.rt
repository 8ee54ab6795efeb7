ghost use Rattle.std.specs.Prelude.{◌≡◌, ◌≤◌, [], IfOk};
ghost use Rattle.rcpsp_model.specs.Project.{nonrenewables};
ghost use Rattle.project_net.specs.Budget.{with_budget};
ghost use Rattle.project_net.specs.Oracle.{IsTrueOf};

use crate::{SHORT_OR_CHEAP, build};
use project_net::{Oracle, OracleAnswer, Project, Reply};
use sched_base::{List, NoMemory};
use std::test::Fail;

/// An oracle that gives up each search at once.
#[derive(Drop)]
struct Idle<'a> {
    project: &'a Project,
    replies: List<Reply>,
    searches: u64,
}

impl Oracle for Idle<'_> {
    ghost about = { λ idle. idle.project.now };

    ghost terms = { λ _. [] };

    ghost asked = { λ idle. idle.replies };

    ghost spent = { λ idle. idle.searches };

    fn least(
        &mut self,
        _project: &Project,
        resource: u8,
        budget: u32,
    ) -> Result<OracleAnswer, NoMemory> {
        let answer = OracleAnswer::Unknown(0);
        let reply = Reply {
            resource,
            budget,
            answer,
        };
        if self.replies.push(reply).is_err() {
            return Err(NoMemory);
        }
        self.searches = self.searches.saturating_add(1);
        Ok(answer)
    }
}

/// What the oracle says of the project with nothing of its first nonrenewable resource.
fn with_nothing<O: Oracle>(oracle: &mut O, project: &Project) -> Result<OracleAnswer, NoMemory>
    requires about { project.now ≡ O.about oracle.old }
    requires some { 1 ≤ nonrenewables project.now }
    ensures { IfOk result (IsTrueOf (with_budget project.now 1 0)) }
{
    oracle.least(project, 1, 0)
}

#[test]
fn asks_an_oracle(rt: HostRuntime) -> Result<(), Fail> {
    let project = build(rt.alloc(), &SHORT_OR_CHEAP)?;
    assert_eq!(rt; project.nonrenewables(), 1);
    let mut idle = Idle {
        project: &project,
        replies: List::new(rt.alloc()),
        searches: 0,
    };
    let answer = with_nothing(&mut idle, &project)?;
    assert_eq!(rt; answer, OracleAnswer::Unknown(0));
    assert_eq!(rt; idle.replies.len(), 1);
    assert_eq!(rt; idle.searches, 1);
    Ok(())
}
