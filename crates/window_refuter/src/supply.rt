ghost use Rattle.std.specs.Prelude.{◌≡◌, ◌-◌, ◌*◌, ◌≤◌, length};
ghost use Rattle.rcpsp_model.specs.Project.{IsRenewable};
ghost use Rattle.rcpsp_model.specs.Bounds.{supply};
ghost use Rattle.window_refuter.specs.Supply.{border};

use project_net::{Project, Stretch};

/// The first period of a stretch, counted from 0, but no later than a period; that period where there is no such stretch.
#[tactic(auto, unfolding(crate::specs::Supply::border))]
fn border(stretches: &[Stretch], place: usize, until: u32) -> u32
    ensures { result ≡ border stretches.now until place }
{
    if place < stretches.len() {
        stretches[place].begin.min(until)
    } else {
        until
    }
}

/// What there is of a renewable resource in the periods before one, summed over its stretches: 0 to 1,290,000,000,000.
pub(crate) fn supply_before(project: &Project, resource: u8, until: u32) -> u64
    requires resource { IsRenewable project.now resource }
    requires soon { until ≤ 1290000 }
    ensures value { result ≡ supply project.now resource 0 until }
    ensures limit { result ≤ 1290000000000 }
{
    let stretches = project.stretches(resource);
    let mut sum = 0;
    let mut at = 0;
    for place in 0..stretches.len() {
        let next = border(stretches, place + 1, until);
        sum += u64::from(stretches[place].capacity) * u64::from(next - at);
        at = next;
    }
    sum
}

/// What there is of a renewable resource in the periods from one up to another, summed.
pub(crate) fn supply_between(project: &Project, resource: u8, from: u32, until: u32) -> u64
    requires resource { IsRenewable project.now resource }
    requires forwards { from ≤ until }
    requires soon { until ≤ 1290000 }
    ensures { result ≡ supply project.now resource from (until - from) }
{
    supply_before(project, resource, until) - supply_before(project, resource, from)
}
