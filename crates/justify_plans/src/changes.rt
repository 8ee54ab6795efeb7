//! Where usage or what there is of a resource may change: where a job starts or is done, and where a stretch of a calendar
//! begins. Between two such periods one look at one period is enough.

ghost use Rattle.std.specs.Prelude.{◌≡◌, ℕ, ◌<◌, ◌≤◌};
ghost use Rattle.rcpsp_model.specs.Project.{IsJob, IsRenewable};
ghost use Rattle.project_net.specs.Feasible.{IsPlaced};
ghost use Rattle.justify_plans.specs.Room.{IsOutside, IsQuiet, IsSteady};

use crate::places::{entry_of, finish_of};
use project_net::{Project, place_at};
use rcpsp_model::Placing;

/// The time where it is after the one period and before the other, else that other.
fn sooner(after: u32, until: u32, time: u32) -> u32
    requires { after < until }
    ensures after { after < result }
    ensures until { result ≤ until }
    ensures outside { IsOutside after result time }
{
    if after < time && time < until {
        time
    } else {
        until
    }
}

/// The time where it is after the one period and before the other, else that one.
fn later(from: u32, before: u32, time: u32) -> u32
    requires { from < before }
    ensures from { from ≤ result }
    ensures before { result < before }
    ensures outside { IsOutside result before time }
{
    if from < time && time < before {
        time
    } else {
        from
    }
}

/// The first period after one, and at the latest another, in which a job starts or is done.
fn next_in_plan(project: &Project, places: &[Placing], after: u32, until: u32) -> u32
    requires some { after < until }
    requires placed { IsPlaced project.now places.now }
    ensures after { after < result }
    ensures until { result ≤ until }
    ensures quiet { (i : ℕ) → IsJob project.now i → IsQuiet project.now places.now after result i }
{
    let mut next = until;
    for done in 0..project.jobs() {
        let start = entry_of(project, places, done + 1).start;
        let finish = finish_of(project, places, done + 1);
        next = sooner(after, next, start);
        next = sooner(after, next, finish);
    }
    next
}

/// The last period before one, and at the earliest another, in which a job starts or is done.
fn last_in_plan(project: &Project, places: &[Placing], from: u32, before: u32) -> u32
    requires some { from < before }
    requires placed { IsPlaced project.now places.now }
    ensures from { from ≤ result }
    ensures before { result < before }
    ensures quiet { (i : ℕ) → IsJob project.now i → IsQuiet project.now places.now result before i }
{
    let mut last = from;
    for done in 0..project.jobs() {
        let start = entry_of(project, places, done + 1).start;
        let finish = finish_of(project, places, done + 1);
        last = later(last, before, start);
        last = later(last, before, finish);
    }
    last
}

/// The first period after one, and at the latest another, in which a stretch of a resource's calendar begins.
fn next_of_resource(project: &Project, resource: u8, after: u32, until: u32) -> u32
    requires some { after < until }
    requires resource { IsRenewable project.now resource }
    ensures after { after < result }
    ensures until { result ≤ until }
    ensures steady { IsSteady project.now after result resource }
{
    let stretches = project.stretches(resource);
    let next = place_at(stretches, after) + 1;
    if next < stretches.len() {
        stretches[next].begin.min(until)
    } else {
        until
    }
}

/// The last period before one, and at the earliest another, in which a stretch of a resource's calendar begins.
fn last_of_resource(project: &Project, resource: u8, from: u32, before: u32) -> u32
    requires some { from < before }
    requires resource { IsRenewable project.now resource }
    ensures from { from ≤ result }
    ensures before { result < before }
    ensures steady { IsSteady project.now result before resource }
{
    let stretches = project.stretches(resource);
    stretches[place_at(stretches, before - 1)].begin.max(from)
}

/// The first period after one, and at the latest another, in which usage or what there is of a resource may change.
pub fn next_change(project: &Project, places: &[Placing], after: u32, until: u32) -> u32
    requires some { after < until }
    requires placed { IsPlaced project.now places.now }
    ensures after { after < result }
    ensures until { result ≤ until }
    ensures quiet { (i : ℕ) → IsJob project.now i → IsQuiet project.now places.now after result i }
    ensures steady { (k : ℕ) → IsRenewable project.now k → IsSteady project.now after result k }
{
    let mut next = next_in_plan(project, places, after, until);
    for done in 0..project.renewables() {
        next = next_of_resource(project, done + 1, after, next);
    }
    next
}

/// The last period before one, and at the earliest another, in which usage or what there is of a resource may change.
pub fn last_change(project: &Project, places: &[Placing], from: u32, before: u32) -> u32
    requires some { from < before }
    requires placed { IsPlaced project.now places.now }
    ensures from { from ≤ result }
    ensures before { result < before }
    ensures quiet { (i : ℕ) → IsJob project.now i → IsQuiet project.now places.now result before i }
    ensures steady { (k : ℕ) → IsRenewable project.now k → IsSteady project.now result before k }
{
    let mut last = last_in_plan(project, places, from, before);
    for done in 0..project.renewables() {
        last = last_of_resource(project, done + 1, last, before);
    }
    last
}
