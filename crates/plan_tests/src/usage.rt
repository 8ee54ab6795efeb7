//! What placed jobs take of each resource in each period, and where a job fits beside them.

ghost use Rattle.std.specs.Prelude.{◌≤◌, All};
ghost use Rattle.std.specs.Bool.{OnTrue};
ghost use Rattle.profiles.specs.Placed.{IsProfileOf};

use profiles::{Entry, Profile};
use project_net::Project;
use sched_base::NoMemory;
use std::alloc::Global;
use std::process::Abort;
use std::test::Fail;
use worked_projects::{AFTER_A_BREAK, DraftRow, LATE_BREAK, WorkedProject, build};

/// The earliest start of a job of one mode from the floor on.
fn earliest_from(
    rt: &impl Abort,
    project: &Project,
    profile: &Profile,
    job: u8,
    floor: u32,
) -> Option<u32>
    requires { IsProfileOf project.now profile.now }
{
    assert!(rt; 1 <= job && job <= project.jobs());
    let modes = project.modes(job);
    assert!(rt; 1 <= modes);
    profile.earliest(project, job, 1, floor)
}

/// Places a job of one mode at a start where it fits.
fn place_at(rt: &impl Abort, project: &Project, profile: &mut Profile, job: u8, start: u32)
    requires { IsProfileOf project.now profile.old }
    ensures { IsProfileOf project.now profile.new }
{
    assert!(rt; 1 <= job && job <= project.jobs());
    let modes = project.modes(job);
    assert!(rt; 1 <= modes && start <= 999_999_999);
    assert!(rt; profile.fits(project, job, 1, start));
    assert_eq!(rt; profile.place(project, job, 1, start), Ok(()));
}

/// Whether no entry starts after the period.
fn start_by(entries: &[Entry], period: u32) -> bool
    ensures { OnTrue result (All (λ e. e.start ≤ period) entries.now) }
{
    for entry in entries {
        if period < entry.start {
            return false;
        }
    }
    true
}

/// Whether a job of one mode fits at a period that is no earlier than each start.
fn fits_last(rt: &impl Abort, project: &Project, profile: &Profile, job: u8, at: u32) -> bool
    requires { IsProfileOf project.now profile.now }
{
    assert!(rt; 1 <= job && job <= project.jobs());
    let modes = project.modes(job);
    assert!(rt; 1 <= modes);
    let entries = profile.entries();
    assert!(rt; start_by(entries, at));
    profile.fits_from_last(project, job, 1, at)
}

/// Places all jobs, each at its earliest start, and gives the last of these starts.
fn place_in_turn(rt: &impl Abort, project: &Project, profile: &mut Profile) -> u32
    requires { IsProfileOf project.now profile.old }
    ensures { IsProfileOf project.now profile.new }
{
    let mut last = 0;
    for done in 0..project.jobs() {
        let earliest = earliest_from(rt, project, profile, done + 1, 0);
        last = earliest.expect(rt, "a start");
        place_at(rt, project, profile, done + 1, last);
    }
    last
}

/// Eighteen jobs in no order, each in one mode.
const EIGHTEEN: WorkedProject = WorkedProject {
    jobs: &[
        (&[(0, &[0, 0], &[])], &[]),
        (&[(3, &[4, 2], &[])], &[]),
        (&[(4, &[3, 3], &[])], &[]),
        (&[(2, &[2, 4], &[])], &[]),
        (&[(4, &[4, 0], &[])], &[]),
        (&[(2, &[3, 2], &[])], &[]),
        (&[(3, &[0, 4], &[])], &[]),
        (&[(5, &[2, 3], &[])], &[]),
        (&[(3, &[3, 3], &[])], &[]),
        (&[(4, &[4, 0], &[])], &[]),
        (&[(5, &[5, 2], &[])], &[]),
        (&[(3, &[2, 3], &[])], &[]),
        (&[(4, &[3, 2], &[])], &[]),
        (&[(2, &[2, 2], &[])], &[]),
        (&[(6, &[6, 1], &[])], &[]),
        (&[(3, &[3, 4], &[])], &[]),
        (&[(4, &[2, 3], &[])], &[]),
        (&[(0, &[0, 0], &[])], &[]),
    ],
    capacities: &[14, 10],
    budgets: &[],
    calendar: &[],
};

/// Their starts in a plan.
static STARTS: [(u8, u32); 18] = [
    (1, 0),
    (2, 0),
    (3, 0),
    (4, 0),
    (5, 3),
    (6, 3),
    (7, 4),
    (8, 4),
    (9, 5),
    (10, 2),
    (11, 7),
    (12, 8),
    (13, 9),
    (14, 8),
    (15, 12),
    (16, 13),
    (17, 10),
    (18, 18),
];

/// What that plan takes of either resource in each period.
static USAGE: [(u32, u64, u64); 19] = [
    (0, 9, 9),
    (1, 9, 9),
    (2, 11, 5),
    (3, 14, 5),
    (4, 13, 9),
    (5, 13, 10),
    (6, 9, 10),
    (7, 10, 8),
    (8, 11, 10),
    (9, 12, 9),
    (10, 12, 10),
    (11, 10, 7),
    (12, 11, 6),
    (13, 11, 8),
    (14, 9, 5),
    (15, 9, 5),
    (16, 6, 1),
    (17, 6, 1),
    (18, 0, 0),
];

/// Places the jobs at their starts, each of which is the earliest from itself on.
fn place_all(rt: &impl Abort, project: &Project, profile: &mut Profile)
    requires { IsProfileOf project.now profile.old }
    ensures { IsProfileOf project.now profile.new }
{
    for (job, start) in &STARTS {
        let earliest = earliest_from(rt, project, profile, *job, *start);
        assert_eq!(rt; earliest, Some(*start), "job {job}");
        place_at(rt, project, profile, *job, *start);
    }
}

/// Compares what the plan takes.
fn compare_usage(rt: &impl Abort, project: &Project, profile: &Profile)
    requires { IsProfileOf project.now profile.now }
{
    assert_eq!(rt; project.renewables(), 2);
    for (period, first, second) in &USAGE {
        let usage = (
            profile.usage(project, 1, *period),
            profile.usage(project, 2, *period),
        );
        assert_eq!(rt; usage, (*first, *second), "period {period}");
    }
}

fn place_and_compare(rt: &impl Abort, alloc: Global, project: &Project) {
    let mut profile = Profile::empty(alloc, project);
    place_all(rt, project, &mut profile);
    assert_eq!(rt; profile.entries().len(), 18);
    compare_usage(rt, project, &profile);
}

#[test]
fn usage_of_a_plan(rt: HostRuntime) -> Result<(), Fail> {
    let project = build(rt.alloc(), &EIGHTEEN)?;
    place_and_compare(&rt, rt.alloc(), &project);
    Ok(())
}

/// Jobs of one mode. Job 1 fills a period. Job 4 takes no time, and job 5 asks for more than there is.
const BESIDE_A_FULL_PERIOD: WorkedProject = WorkedProject {
    jobs: &[
        (&[(1, &[2, 0], &[])], &[]),
        (&[(1, &[1, 0], &[])], &[]),
        (&[(2, &[1, 0], &[])], &[]),
        (&[(0, &[2, 1], &[])], &[]),
        (&[(1, &[3, 0], &[])], &[]),
    ],
    capacities: &[2, 0],
    budgets: &[],
    calendar: &[],
};

/// A job, a floor, and its earliest start from there on, where job 1 fills period 1.
static STARTS_BESIDE: [(u8, u32, Option<u32>); 6] = [
    (2, 0, Some(0)),
    (2, 1, Some(2)),
    (3, 0, Some(2)),
    (4, 1, Some(1)),
    (5, 0, None),
    (2, 4_294_967_295, Some(4_294_967_295)),
];

fn compare_starts(rt: &impl Abort, alloc: Global, project: &Project) {
    let mut profile = Profile::empty(alloc, project);
    place_at(rt, project, &mut profile, 1, 1);
    for (job, floor, start) in &STARTS_BESIDE {
        let earliest = earliest_from(rt, project, &profile, *job, *floor);
        assert_eq!(rt; earliest, *start, "job {job} from {floor}");
    }
}

#[test]
fn starts_beside_a_full_period(rt: HostRuntime) -> Result<(), Fail> {
    let project = build(rt.alloc(), &BESIDE_A_FULL_PERIOD)?;
    compare_starts(&rt, rt.alloc(), &project);
    Ok(())
}

/// Two jobs of one period that both ask for all there is.
const TWO_SHORT: WorkedProject = WorkedProject {
    jobs: &[(&[(1, &[1, 1], &[])], &[]), (&[(1, &[1, 1], &[])], &[])],
    capacities: &[1, 1],
    budgets: &[],
    calendar: &[],
};

fn use_room(rt: &impl Abort, alloc: Global, project: &Project) {
    let mut profile = Profile::empty(alloc, project);
    assert_eq!(rt; profile.reserve(2), Ok(()));
    place_at(rt, project, &mut profile, 1, 0);
    place_at(rt, project, &mut profile, 2, 1);
    assert_eq!(rt; profile.entries().len(), 2);
}

#[test]
fn room_is_made_and_used(rt: HostRuntime) -> Result<(), Fail> {
    let project = build(rt.alloc(), &TWO_SHORT)?;
    use_room(&rt, rt.alloc(), &project);
    Ok(())
}

/// The longest job, which asks for all there is of the first resource.
const LONGEST: DraftRow = (&[(10_000, &[1, 0], &[])], &[]);

const ALL_LONGEST: WorkedProject = WorkedProject {
    jobs: &[LONGEST; 128],
    capacities: &[1, 0],
    budgets: &[],
    calendar: &[],
};

fn place_the_longest(rt: &impl Abort, alloc: Global, project: &Project) -> Result<(), NoMemory> {
    let mut profile = Profile::empty(alloc, project);
    profile.reserve(128)?;
    assert_eq!(rt; place_in_turn(rt, project, &mut profile), 1_270_000);
    assert_eq!(rt; profile.times(project).len(), 129);
    Ok(())
}

#[test]
fn long_jobs_one_after_the_other(rt: HostRuntime) -> Result<(), Fail> {
    let project = build(rt.alloc(), &ALL_LONGEST)?;
    Ok(place_the_longest(&rt, rt.alloc(), &project)?)
}

/// Compares whether a job of one mode fits at each period, where none of the placed jobs starts later.
fn compare_last(
    rt: &impl Abort,
    project: &Project,
    profile: &Profile,
    job: u8,
    cases: &[(u32, bool)],
)
    requires { IsProfileOf project.now profile.now }
{
    for (at, fits) in cases {
        assert_eq!(rt; fits_last(rt, project, profile, job, *at), *fits, "at {at}");
    }
}

fn compare_times(rt: &impl Abort, alloc: Global, project: &Project) {
    let mut profile = Profile::empty(alloc, project);
    let none: [u32; 0] = [];
    assert_eq!(rt; profile.times(project), none.as_slice());
    compare_last(
        rt,
        project,
        &profile,
        2,
        &[(0, false), (1, false), (2, true)],
    );
    place_at(rt, project, &mut profile, 1, 0);
    place_at(rt, project, &mut profile, 2, 2);
    assert_eq!(rt; profile.times(project), [0, 2, 5].as_slice());
    compare_last(
        rt,
        project,
        &profile,
        3,
        &[(2, false), (4, false), (5, true)],
    );
}

#[test]
fn times_and_the_last_start(rt: HostRuntime) -> Result<(), Fail> {
    let project = build(rt.alloc(), &AFTER_A_BREAK)?;
    compare_times(&rt, rt.alloc(), &project);
    Ok(())
}

fn compare_around_a_break(rt: &impl Abort, alloc: Global, project: &Project) {
    let profile = Profile::empty(alloc, project);
    compare_last(
        rt,
        project,
        &profile,
        1,
        &[(0, false), (2, false), (3, true)],
    );
    for at in [0, 2, 3] {
        let start = earliest_from(rt, project, &profile, 1, at);
        assert_eq!(rt; start, Some(3), "from {at}");
    }
}

#[test]
fn a_break_in_a_mode(rt: HostRuntime) -> Result<(), Fail> {
    let project = build(rt.alloc(), &LATE_BREAK)?;
    compare_around_a_break(&rt, rt.alloc(), &project);
    Ok(())
}
