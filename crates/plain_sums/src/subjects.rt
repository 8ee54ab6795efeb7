//! The projects, each with fronts of it.

use crate::large::large_draft;
use crate::walks::{Fronts, Walks, fronts_of};
use project_net::{CalRow, Project};
use std::alloc::Global;
use std::process::Abort;
use std::test::Fail;
use worked_projects::{EIGHTEEN_JOBS, EIGHTEEN_JOBS_TIGHT, WorkedProject, build, build_draft};

/// A project, and fronts of it.
#[derive(Drop)]
pub struct Subject {
    pub project: Box<Project>,
    pub fronts: Fronts,
}

/// The eighteen jobs with less of the second budget, and with a time of little and a day of nothing.
const WITH_BREAKS: WorkedProject = WorkedProject {
    calendar: &[
        CalRow {
            resource: 1,
            begin: 4,
            until: 6,
            capacity: 5,
        },
        CalRow {
            resource: 2,
            begin: 9,
            until: 10,
            capacity: 0,
        },
    ],
    ..EIGHTEEN_JOBS_TIGHT
};

/// All fronts of some walks in a project that is worked out.
fn worked(rt: &impl Abort, alloc: Global, project: &WorkedProject) -> Result<Subject, Fail> {
    let project = build(alloc, project)?;
    let walks = Walks {
        number: 8,
        apart: 1,
    };
    let fronts = fronts_of(rt, alloc, &project, walks)?;
    Ok(Subject { project, fronts })
}

/// Eighteen jobs, two resources of either kind, and a short and a cheap mode of most jobs.
pub fn eighteen_jobs(rt: &impl Abort, alloc: Global) -> Result<Subject, Fail> {
    worked(rt, alloc, &EIGHTEEN_JOBS)
}

/// The same with less of a budget, and with a calendar.
pub fn with_breaks(rt: &impl Abort, alloc: Global) -> Result<Subject, Fail> {
    worked(rt, alloc, &WITH_BREAKS)
}

/// As many jobs as there can be, and each sixteenth front of some walks.
pub fn most_jobs(rt: &impl Abort, alloc: Global) -> Result<Subject, Fail> {
    let draft = large_draft(alloc)?;
    let project = build_draft(alloc, draft)?;
    let walks = Walks {
        number: 6,
        apart: 16,
    };
    let fronts = fronts_of(rt, alloc, &project, walks)?;
    Ok(Subject { project, fronts })
}
