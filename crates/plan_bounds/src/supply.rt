ghost use Rattle.std.specs.Prelude.{◌≡◌, ◌+◌, ◌*◌, ◌<◌, ◌≤◌, ◌^◌};
ghost use Rattle.rcpsp_model.specs.Project.{IsRenewable, capacity};
ghost use Rattle.rcpsp_model.specs.Chain.{IsLeast};
ghost use Rattle.plan_bounds.specs.Work.{IsEndOfWork};

use project_net::{Project, place_at};

/// The periods that so much work takes where there is so much in each.
fn periods_for(work: u64, capacity: u64) -> u64
    requires some { 0 < capacity }
    requires limit { work + capacity < 2 ^ 64 }
    ensures value { IsLeast (λ n. work ≤ n * capacity) result }
    ensures few { result ≤ work }
{
    (work + capacity - 1) / capacity
}

/// The first period by which the periods from one on hold so much work on a resource, at most 999,999,999.
///
/// What there is of the resource is summed over its stretches, from the one that has the first of these periods.
pub fn end_of_work(project: &Project, resource: u8, from: u32, work: u64) -> u32
    requires resource { IsRenewable project.now resource }
    requires some { 0 < capacity project.now resource }
    requires soon { from ≤ 1290000 }
    requires limit { work ≤ 3840000000000 }
    ensures value { IsEndOfWork project.now resource from work result }
    ensures limit { result ≤ 999999999 }
{
    if work == 0 {
        return from;
    }
    let stretches = project.stretches(resource);
    let mut at = u64::from(from);
    let mut left = work;
    for place in place_at(stretches, from)..stretches.len() - 1 {
        let there = u64::from(stretches[place].capacity);
        let until = u64::from(stretches[place + 1].begin);
        let held = there * (until - at);
        if left <= held {
            let end = at + periods_for(left, there);
            return end as u32;
        }
        left -= held;
        at = until;
    }
    let end = at + periods_for(left, u64::from(project.capacity(resource)));
    end.min(999_999_999) as u32
}
