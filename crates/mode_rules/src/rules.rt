ghost use Rattle.std.specs.Prelude.{◌≡◌, ℕ, ◌≤◌, ◌↔◌, sum_by, IsTrue, IfSome, IfNone};
ghost use Rattle.rcpsp_model.specs.Project.{IsJob, IsMode, IsRenewable, IsNonrenewable, jobs};
ghost use Rattle.rcpsp_model.specs.Chain.{IsLeast, least_duration as least_duration_of};
ghost use Rattle.rcpsp_model.specs.Modes.{IsExecutable, LacksCapacity, IsInefficientBy, IsEfficient, least_need as least_need_of, least_work as least_work_of};

use project_net::Project;

/// Whether a job in a mode can run at all: it takes no time, or asks for no more than the capacities.
pub fn executable(project: &Project, job: u8, mode: u8) -> bool
    requires job { IsJob project.now job }
    requires mode { IsMode project.now job mode }
    ensures { IsTrue result ↔ IsExecutable project.now job mode }
{
    project.lacking(job, mode).is_none()
}

/// The lowest renewable resource of which a mode that takes time asks more than its capacity.
pub fn lacking(project: &Project, job: u8, mode: u8) -> Option<u8>
    requires job { IsJob project.now job }
    requires mode { IsMode project.now job mode }
    ensures some { IfSome result (IsLeast (LacksCapacity project.now job mode)) }
    ensures none { IfNone result (IsExecutable project.now job mode) }
{
    project.lacking(job, mode)
}

/// The least duration over the modes of a job, 0 to 10,000 periods.
pub fn least_duration(project: &Project, job: u8) -> u32
    requires { IsJob project.now job }
    ensures value { result ≡ least_duration_of project.now job }
    ensures limit { result ≤ 10000 }
{
    project.least_duration(job)
}

/// The least that a job needs of a nonrenewable resource, over all its modes: 0 to 1,000,000.
pub fn least_need(project: &Project, job: u8, resource: u8) -> u32
    requires job { IsJob project.now job }
    requires resource { IsNonrenewable project.now resource }
    ensures value { result ≡ least_need_of project.now job resource }
    ensures limit { result ≤ 1000000 }
{
    project.least_need(job, resource)
}

/// The least work of a job on a renewable resource, over all its modes: periods times request, 0 to 10,000,000,000.
pub fn least_work(project: &Project, job: u8, resource: u8) -> u64
    requires job { IsJob project.now job }
    requires resource { IsRenewable project.now resource }
    ensures value { result ≡ least_work_of project.now job resource }
    ensures limit { result ≤ 10000000000 }
{
    project.least_work(job, resource)
}

/// The sum over all jobs of the least that each needs of a nonrenewable resource: 0 to 128,000,000.
pub fn least_need_of_all(project: &Project, resource: u8) -> u64
    requires { IsNonrenewable project.now resource }
    ensures value { result ≡ sum_by (λ j. least_need_of project.now j resource) (jobs project.now) }
    ensures limit { result ≤ 128000000 }
{
    project.least_need_of_all(resource)
}

/// The lowest mode that makes a mode of a job inefficient: one that takes no more, and takes less or has the lower
/// number (Sprecher, Hartmann and Drexl 1997).
pub fn inefficient(project: &Project, job: u8, mode: u8) -> Option<u8>
    requires job { IsJob project.now job }
    requires mode { IsMode project.now job mode }
    ensures by { IfSome result (IsLeast (IsInefficientBy project.now job mode)) }
    ensures none { IfNone result (IsEfficient project.now job mode) }
{
    project.inefficient(job, mode)
}
