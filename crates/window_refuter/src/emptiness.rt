ghost use Rattle.std.specs.Prelude.{◌≡◌, ◌-◌, ◌<◌, ◌≤◌, ◌↔◌, length, All, IsTrue, IfSome, IfNone};
ghost use Rattle.rcpsp_model.specs.Project.{IsJob, job_count};
ghost use Rattle.window_refuter.specs.Windows.{window_of, earliest_finish, latest_start, IsEmptyWindow, NoneIsEmpty};

use crate::window::Window;
use mode_rules::least_duration;
use project_net::Project;

/// The window of a job.
#[tactic(auto, unfolding(crate::specs::Windows::window_of))]
pub(crate) fn window(windows: &[Window], job: u8) -> Window
    requires low { 1 ≤ job }
    requires high { job ≤ length windows.now }
    ensures { result ≡ window_of windows.now job }
{
    windows[job as usize - 1]
}

/// The first period by which a job can be over, in its shortest mode: at most 1,300,000.
pub(crate) fn earliest_finish(project: &Project, windows: &[Window], job: u8) -> u32
    requires job { IsJob project.now job }
    requires size { length windows.now ≡ job_count project.now }
    requires starts { All (λ w. w.earliest_start ≤ 1290000) windows.now }
    ensures value { result ≡ earliest_finish project.now windows.now job }
    ensures limit { result ≤ 1300000 }
{
    window(windows, job).earliest_start + least_duration(project, job)
}

/// The last period at which a job has to start, in its shortest mode; 0 where its window is empty.
pub(crate) fn latest_start(project: &Project, windows: &[Window], job: u8) -> u32
    requires job { IsJob project.now job }
    requires size { length windows.now ≡ job_count project.now }
    ensures { result ≡ latest_start project.now windows.now job }
{
    window(windows, job)
        .latest_finish
        .saturating_sub(least_duration(project, job))
}

/// Whether the window of a job is shorter than the job.
pub(crate) fn is_empty(project: &Project, windows: &[Window], job: u8) -> bool
    requires job { IsJob project.now job }
    requires size { length windows.now ≡ job_count project.now }
    requires starts { All (λ w. w.earliest_start ≤ 1290000) windows.now }
    ensures { IsTrue result ↔ IsEmptyWindow project.now windows.now job }
{
    window(windows, job).latest_finish < earliest_finish(project, windows, job)
}

/// The lowest job whose window is shorter than the job, if there is one.
pub(crate) fn empty_window(project: &Project, windows: &[Window]) -> Option<u8>
    requires size { length windows.now ≡ job_count project.now }
    requires starts { All (λ w. w.earliest_start ≤ 1290000) windows.now }
    ensures some { IfSome result (λ j. IsJob project.now j × IsEmptyWindow project.now windows.now j) }
    ensures none { IfNone result (NoneIsEmpty project.now windows.now) }
{
    for done in 0..project.jobs() {
        if is_empty(project, windows, done + 1) {
            return Some(done + 1);
        }
    }
    None
}
