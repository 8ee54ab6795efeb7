//! What is drawn by chance: words of a generator with one seed, so that the same calls draw the same.

ghost use Rattle.std.specs.Prelude.{◌<◌, ◌≤◌};
ghost use Rattle.rcpsp_model.specs.Project.{IsJob, IsMode};

use project_net::Project;
use rand_core::Rng;
use rand_pcg::Lcg64Xsh32;

/// The next word, modulo the bound.
pub fn draw(rng: &mut Lcg64Xsh32, bound: u32) -> u32
    requires { 1 ≤ bound }
    ensures { result < bound }
{
    rng.next_u32() % bound
}

/// A job.
pub fn draw_job(rng: &mut Lcg64Xsh32, project: &Project) -> u8
    ensures { IsJob project.now result }
{
    1 + draw(rng, u32::from(project.jobs())) as u8
}

/// A mode of the job.
pub fn draw_mode(rng: &mut Lcg64Xsh32, project: &Project, job: u8) -> u8
    requires { IsJob project.now job }
    ensures { IsMode project.now job result }
{
    1 + draw(rng, u32::from(project.modes(job))) as u8
}
