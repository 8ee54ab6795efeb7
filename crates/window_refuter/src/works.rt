ghost use Rattle.std.specs.Prelude.{◌≡◌, ◌*◌, ◌≤◌, ◌↔◌, length, All, IsTrue};
ghost use Rattle.rcpsp_model.specs.Project.{IsRenewable, job_count};
ghost use Rattle.window_refuter.specs.Windows.{is_within, work_within};
ghost use Rattle.window_refuter.specs.Steps.{IsOverfull};

use crate::emptiness::window;
use crate::least::is_renewable;
use crate::supply::supply_between;
use crate::window::Window;
use mode_rules::least_work;
use project_net::Project;

/// Whether a job has to run within the periods from one up to another.
fn is_within(windows: &[Window], from: u32, until: u32, job: u8) -> bool
    requires low { 1 ≤ job }
    requires high { job ≤ length windows.now }
    ensures { result ≡ is_within windows.now from until job }
{
    let window = window(windows, job);
    from <= window.earliest_start && window.latest_finish <= until
}

/// The least work on a renewable resource of the jobs that have to run within the periods from one up to another: 0 to
/// 1,280,000,000,000.
fn work_within(project: &Project, windows: &[Window], resource: u8, from: u32, until: u32) -> u64
    requires resource { IsRenewable project.now resource }
    requires size { length windows.now ≡ job_count project.now }
    ensures value { result ≡ work_within project.now windows.now resource from until }
    ensures limit { result ≤ 1280000000000 }
{
    let mut work = 0;
    for done in 0..project.jobs() {
        if is_within(windows, from, until, done + 1) {
            work += least_work(project, done + 1, resource);
        }
    }
    work
}

/// Whether the jobs that have to run within the periods from one up to another, by the end, take more of a resource than
/// there is in these.
pub(crate) fn is_overfull(
    project: &Project,
    end: u32,
    windows: &[Window],
    resource: u8,
    from: u32,
    until: u32,
) -> bool
    requires soon { end ≤ 1290000 }
    requires size { length windows.now ≡ job_count project.now }
    ensures { IsTrue result ↔ IsOverfull project.now end windows.now resource from until }
{
    is_renewable(project, resource)
        && from <= until
        && until <= end
        && supply_between(project, resource, from, until)
            < work_within(project, windows, resource, from, until)
}
