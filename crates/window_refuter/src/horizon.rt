ghost use Rattle.std.specs.Prelude.{◌≡◌, ◌≤◌, map};
ghost use Rattle.rcpsp_model.specs.Project.{IsJob, modes_of};
ghost use Rattle.project_net.specs.Canonical.{greatest, horizon};

use project_net::Project;

/// The greatest duration over the modes of a job, 0 to 10,000.
fn greatest_duration(project: &Project, job: u8) -> u32
    requires { IsJob project.now job }
    ensures value { result ≡ greatest (map (λ m. m.duration) (modes_of project.now job)) }
    ensures limit { result ≤ 10000 }
{
    let mut greatest = 0;
    for done in 0..project.modes(job) {
        let duration = project.duration(job, done + 1);
        if greatest < duration {
            greatest = duration;
        }
    }
    greatest
}

/// The sum of the greatest durations of all jobs and the end of the last row of the calendar: 0 to 1,290,000.
pub(crate) fn horizon(project: &Project) -> u32
    ensures value { result ≡ horizon project.now }
    ensures limit { result ≤ 1290000 }
{
    let mut sum = 0;
    for done in 0..project.jobs() {
        sum += greatest_duration(project, done + 1);
    }
    sum + project.calm()
}
