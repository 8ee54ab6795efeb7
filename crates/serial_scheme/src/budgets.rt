ghost use Rattle.std.specs.Prelude.{◌≡◌, ◌↔◌, ◌≤◌, length, IsTrue};
ghost use Rattle.rcpsp_model.specs.Project.{IsNonrenewable};
ghost use Rattle.rcpsp_model.specs.Schedule.{used, AreOf, KeepsBudgets};

use project_net::Project;
use rcpsp_model::Entry;

/// What the entries need of the nonrenewable resource, at most 1,000,000 each.
fn used_by(project: &Project, entries: &[Entry], resource: u8) -> u32
    requires entries { AreOf project.now entries.now }
    requires few { length entries.now ≤ 128 }
    requires resource { IsNonrenewable project.now resource }
    ensures { result ≡ used project.now entries.now resource }
{
    let mut sum = 0;
    for entry in entries {
        sum += project.need(entry.job, entry.mode, resource);
    }
    sum
}

/// Whether what the entries need is within each budget.
pub fn keeps_budgets(project: &Project, entries: &[Entry]) -> bool
    requires entries { AreOf project.now entries.now }
    requires few { length entries.now ≤ 128 }
    ensures { IsTrue result ↔ KeepsBudgets project.now entries.now }
{
    for resource in 1..project.nonrenewables() + 1 {
        if used_by(project, entries, resource) > project.budget(resource) {
            return false;
        }
    }
    true
}
