ghost use Rattle.std.specs.Prelude.{◌≡◌, ℕ, ◌+◌, ◌-◌, ◌≤◌, length, slice_index, sum_by};
ghost use Rattle.rcpsp_model.specs.Project.{IsJob, IsRenewable, jobs};
ghost use Rattle.rcpsp_model.specs.Modes.{least_work as least_work_of};
ghost use Rattle.precedence_tree.specs.Needs.{HaveLeastWork};

use project_net::Project;

/// The least work of the jobs that aren't placed on each renewable resource.
#[derive(Clone, Copy)]
pub struct Works {
    pub rest: [u64; 16],
}

impl Works {
    /// The works where no job is placed.
    pub fn of_none(project: &Project) -> Works
        ensures value { (k : ℕ) → IsRenewable project.now k → slice_index result.rest (k - 1) ≡ sum_by (λ j. least_work_of project.now j k) (jobs project.now) }
        ensures limit { (k : ℕ) → IsRenewable project.now k → slice_index result.rest (k - 1) ≤ 1280000000000 }
    {
        let mut works = Works { rest: [0; 16] };
        set_works(project, &mut works.rest);
        works
    }

    /// The works with one more job placed.
    pub fn with(self, project: &Project, job: u8) -> Works
        requires job { IsJob project.now job }
        requires rest { HaveLeastWork project.now job self.rest }
        ensures { (k : ℕ) → IsRenewable project.now k → slice_index result.rest (k - 1) + least_work_of project.now job k ≡ slice_index self.rest (k - 1) }
    {
        let mut next = self;
        take_works(project, job, &mut next.rest);
        next
    }
}

/// The least work of all jobs on the resource; at most 128 times 10,000,000,000.
pub fn least_work_of_all(project: &Project, resource: u8) -> u64
    requires { IsRenewable project.now resource }
    ensures value { result ≡ sum_by (λ j. least_work_of project.now j resource) (jobs project.now) }
    ensures limit { result ≤ 1280000000000 }
{
    let mut sum = 0;
    for done in 0..project.jobs() {
        sum += project.least_work(done + 1, resource);
    }
    sum
}

/// Sets each number to the least work of all jobs on the resource.
fn set_works(project: &Project, numbers: &mut [u64])
    requires size { length numbers.old ≡ 16 }
    ensures value { (k : ℕ) → IsRenewable project.now k → slice_index numbers.new (k - 1) ≡ sum_by (λ j. least_work_of project.now j k) (jobs project.now) }
    ensures limit { (k : ℕ) → IsRenewable project.now k → slice_index numbers.new (k - 1) ≤ 1280000000000 }
{
    for done in 0..project.renewables() {
        numbers[done as usize] = least_work_of_all(project, done + 1);
    }
}

/// Takes from each number the least work of the job on the resource.
fn take_works(project: &Project, job: u8, numbers: &mut [u64])
    requires job { IsJob project.now job }
    requires size { length numbers.old ≡ 16 }
    requires enough { HaveLeastWork project.now job numbers.old }
    ensures { (k : ℕ) → IsRenewable project.now k → slice_index numbers.new (k - 1) + least_work_of project.now job k ≡ slice_index numbers.old (k - 1) }
{
    for done in 0..project.renewables() {
        numbers[done as usize] -= project.least_work(job, done + 1);
    }
}
