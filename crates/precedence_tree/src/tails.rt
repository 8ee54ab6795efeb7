ghost use Rattle.std.specs.Prelude.{◌≡◌, ℕ, ◌≤◌, List, true};
ghost use Rattle.sched_base.specs.JobSet.{member};
ghost use Rattle.rcpsp_model.specs.declared.parts.Entry.{Entry};
ghost use Rattle.rcpsp_model.specs.Project.{IsJob};
ghost use Rattle.precedence_tree.specs.Frontier.{AreEligible};
ghost use Rattle.precedence_tree.specs.Tails.{IsLongestTail};

use project_net::Project;
use sched_base::JobSet;

/// The greatest tail of the jobs of the set, in periods; 0 where there is none.
///
/// Of whichever front these are the eligible jobs, it is the greatest tail of the jobs that can be placed next.
pub fn longest_tail(project: &Project, jobs: JobSet) -> u32
    requires { (j : ℕ) → 1 ≤ j → member jobs j ≡ true → IsJob project.now j }
    ensures value { (F : List Entry) → AreEligible project.now F jobs → IsLongestTail project.now F result }
    ensures limit { result ≤ 1280000 }
{
    let mut longest = 0u32;
    let mut rest = jobs.0;
    while rest != 0 {
        let job = rest.trailing_zeros() as u8 + 1;
        longest = longest.max(project.tail(job));
        rest &= rest - 1;
    }
    longest
}
