ghost use Rattle.std.specs.Prelude.{◌≡◌, ◌+◌, ◌<◌, ◌≤◌, ◌↔◌, IsTrue};
ghost use Rattle.rcpsp_model.specs.Project.{IsJob, IsRenewable, capacity};
ghost use Rattle.rcpsp_model.specs.Chain.{least_duration};
ghost use Rattle.window_refuter.specs.Windows.{least_request};
ghost use Rattle.window_refuter.specs.Steps.{IsConflict};

use mode_rules::least_duration;
use project_net::Project;

/// The least that a job asks of a renewable resource, over its modes: 0 to 1,000,000.
fn least_request(project: &Project, job: u8, resource: u8) -> u32
    requires job { IsJob project.now job }
    requires resource { IsRenewable project.now resource }
    ensures value { result ≡ least_request project.now job resource }
    ensures limit { result ≤ 1000000 }
{
    let modes = project.modes(job);
    let mut least = project.request(job, 1, resource);
    for mode in 1..modes {
        let request = project.request(job, mode + 1, resource);
        if request < least {
            least = request;
        }
    }
    least
}

/// Whether there is a job of this number.
pub(crate) fn is_job(project: &Project, job: u8) -> bool
    ensures { IsTrue result ↔ IsJob project.now job }
{
    1 <= job && job <= project.jobs()
}

/// Whether there is a renewable resource of this number.
pub(crate) fn is_renewable(project: &Project, resource: u8) -> bool
    ensures { IsTrue result ↔ IsRenewable project.now resource }
{
    1 <= resource && resource <= project.renewables()
}

/// Whether two jobs ask for more of the resource together than its capacity, in each of their modes.
fn exceed(project: &Project, first: u8, second: u8, resource: u8) -> bool
    requires first { IsJob project.now first }
    requires second { IsJob project.now second }
    requires resource { IsRenewable project.now resource }
    ensures { IsTrue result ↔ (capacity project.now resource < least_request project.now first resource + least_request project.now second resource) }
{
    let together = least_request(project, first, resource)
        + least_request(project, second, resource);
    project.capacity(resource) < together
}

/// Whether both jobs take time in each of their modes.
fn take_time(project: &Project, first: u8, second: u8) -> bool
    requires first { IsJob project.now first }
    requires second { IsJob project.now second }
    ensures { IsTrue result ↔ ((0 < least_duration project.now first) × (0 < least_duration project.now second)) }
{
    0 < least_duration(project, first) && 0 < least_duration(project, second)
}

/// Whether two jobs can't run in the same period, for what they ask of the resource.
pub(crate) fn conflict(project: &Project, first: u8, second: u8, resource: u8) -> bool
    ensures { IsTrue result ↔ IsConflict project.now first second resource }
{
    is_job(project, first)
        && is_job(project, second)
        && is_renewable(project, resource)
        && first != second
        && take_time(project, first, second)
        && exceed(project, first, second, resource)
}
