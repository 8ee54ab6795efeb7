//! Where there is too little of a resource for one more request, stretch by stretch of its calendar.

ghost use Rattle.std.specs.Prelude.{◌≡◌, ℕ, ◌+◌, ◌-◌, ◌^◌, ◌<◌, ◌≤◌, max, length, IfSome, IfNone};
ghost use Rattle.rcpsp_model.specs.Project.{IsRenewable, renewables};
ghost use Rattle.rcpsp_model.specs.Schedule.{cap};
ghost use Rattle.project_net.specs.Stretches.{begin_of, capacity_of};
ghost use Rattle.profiles.specs.Steps.{IsSpan, HasSteps, AreInOrder};

use crate::steps::{Steps, over_up_to};
use project_net::{Project, Stretch, place_at};

/// The stretch in the place, cut to begin no earlier than the period.
pub fn cut_from(stretches: &[Stretch], place: usize, from: u32) -> Stretch
    requires { place < length stretches.now }
    ensures begin { result.begin ≡ max from (begin_of stretches.now place) }
    ensures capacity { result.capacity ≡ capacity_of stretches.now place }
{
    let stretch = stretches[place];
    Stretch {
        begin: from.max(stretch.begin),
        capacity: stretch.capacity,
    }
}

/// The first period of the next stretch, or one that no job reaches where there is none.
pub fn next_begin(stretches: &[Stretch], place: usize) -> u64
    requires { place < length stretches.now }
    ensures next { place + 1 < length stretches.now → result ≡ begin_of stretches.now (place + 1) }
    ensures last { length stretches.now ≤ place + 1 → result ≡ 2 ^ 64 - 1 }
{
    if place + 1 < stretches.len() {
        u64::from(stretches[place + 1].begin)
    } else {
        u64::MAX
    }
}

/// The end of the first span within some periods of a stretch in which the number and the request exceed the capacity, as far
/// as the number is the same and the stretch goes on, which is up to the next one.
fn short_within(
    steps: &Steps,
    place: usize,
    capacity: u32,
    request: u32,
    from: u32,
    until: u64,
    next: u64,
) -> Option<u64>
    requires order { AreInOrder steps.now }
    requires place { place < steps.now.width }
    requires some { from < until }
    requires within { until ≤ next }
    ensures none { IfNone result ((number : ℕ → ℕ) → HasSteps number steps.now place → (t : ℕ) → from ≤ t → t < until → number t + request ≤ capacity) }
    ensures some { IfSome result (λ end. (number : ℕ → ℕ) → HasSteps number steps.now place → IsSpan (λ t. capacity < number t + request) from until end) }
    ensures within { IfSome result (λ end. end ≤ next) }
{
    if capacity < request {
        return Some(next);
    }
    let end = over_up_to(steps, place, capacity - request, from, until)?;
    Some(end.min(next))
}

/// The end of the first span within some periods in which there is too little of the resource for the number and the request,
/// as far as both the number and what there is stay the same.
pub fn short_up_to(
    project: &Project,
    steps: &Steps,
    resource: u8,
    request: u32,
    from: u32,
    until: u64,
) -> Option<u64>
    requires order { AreInOrder steps.now }
    requires width { steps.now.width ≡ renewables project.now }
    requires resource { IsRenewable project.now resource }
    requires some { from < until }
    ensures none { IfNone result ((number : ℕ → ℕ) → HasSteps number steps.now (resource - 1) → (t : ℕ) → from ≤ t → t < until → number t + request ≤ cap project.now resource t) }
    ensures some { IfSome result (λ end. (number : ℕ → ℕ) → HasSteps number steps.now (resource - 1) → IsSpan (λ t. cap project.now resource t < number t + request) from until end) }
{
    let stretches = project.stretches(resource);
    let first = place_at(stretches, from);
    for place in first..stretches.len() {
        let stretch = cut_from(stretches, place, from);
        let begin = stretch.begin;
        if until <= u64::from(begin) {
            return None;
        }
        let next = next_begin(stretches, place);
        let end = next.min(until);
        let own = usize::from(resource) - 1;
        match short_within(steps, own, stretch.capacity, request, begin, end, next) {
            Some(end) => return Some(end),
            None => (),
        }
    }
    None
}
