ghost use Rattle.std.specs.Prelude.{◌≡◌, ℕ, ◌+◌, ◌-◌, ◌≤◌, length, slice_index, sum_by};
ghost use Rattle.rcpsp_model.specs.Project.{IsJob, IsMode, IsNonrenewable, jobs, need};
ghost use Rattle.rcpsp_model.specs.Modes.{least_need as least_need_of};
ghost use Rattle.precedence_tree.specs.Needs.{AreSmall, HaveLeast};

use project_net::Project;

/// What placed jobs need of each nonrenewable resource, and what the others need at least.
#[derive(Clone, Copy)]
pub struct Needs {
    /// What the placed jobs need.
    pub used: [u32; 16],
    /// What the other jobs need, whatever their modes.
    pub rest: [u32; 16],
}

impl Needs {
    /// The needs where no job is placed.
    pub fn of_none(project: &Project) -> Needs
        ensures used { (i : ℕ) → slice_index result.used i ≡ 0 }
        ensures rest { (l : ℕ) → IsNonrenewable project.now l → slice_index result.rest (l - 1) ≡ sum_by (λ j. least_need_of project.now j l) (jobs project.now) }
    {
        let mut needs = Needs {
            used: [0; 16],
            rest: [0; 16],
        };
        set_least_needs(project, &mut needs.rest);
        needs
    }

    /// The needs with one more job placed.
    pub fn with(self, project: &Project, job: u8, mode: u8) -> Needs
        requires job { IsJob project.now job }
        requires mode { IsMode project.now job mode }
        requires used { AreSmall project.now self.used }
        requires rest { HaveLeast project.now job self.rest }
        ensures used { (l : ℕ) → IsNonrenewable project.now l → slice_index result.used (l - 1) ≡ slice_index self.used (l - 1) + need project.now job mode l }
        ensures rest { (l : ℕ) → IsNonrenewable project.now l → slice_index result.rest (l - 1) + least_need_of project.now job l ≡ slice_index self.rest (l - 1) }
    {
        let mut next = self;
        add_needs(project, job, mode, &mut next.used);
        take_least_needs(project, job, &mut next.rest);
        next
    }
}

/// Adds to each number what the job in the mode needs of the resource.
fn add_needs(project: &Project, job: u8, mode: u8, numbers: &mut [u32])
    requires job { IsJob project.now job }
    requires mode { IsMode project.now job mode }
    requires size { length numbers.old ≡ 16 }
    requires small { AreSmall project.now numbers.old }
    ensures { (l : ℕ) → IsNonrenewable project.now l → slice_index numbers.new (l - 1) ≡ slice_index numbers.old (l - 1) + need project.now job mode l }
{
    for done in 0..project.nonrenewables() {
        numbers[done as usize] += project.need(job, mode, done + 1);
    }
}

/// Takes from each number the least that the job needs of the resource.
fn take_least_needs(project: &Project, job: u8, numbers: &mut [u32])
    requires job { IsJob project.now job }
    requires size { length numbers.old ≡ 16 }
    requires enough { HaveLeast project.now job numbers.old }
    ensures { (l : ℕ) → IsNonrenewable project.now l → slice_index numbers.new (l - 1) + least_need_of project.now job l ≡ slice_index numbers.old (l - 1) }
{
    for done in 0..project.nonrenewables() {
        numbers[done as usize] -= project.least_need(job, done + 1);
    }
}

/// Sets each number to the least that all jobs need of the resource.
fn set_least_needs(project: &Project, numbers: &mut [u32])
    requires size { length numbers.old ≡ 16 }
    ensures { (l : ℕ) → IsNonrenewable project.now l → slice_index numbers.new (l - 1) ≡ sum_by (λ j. least_need_of project.now j l) (jobs project.now) }
{
    for done in 0..project.nonrenewables() {
        numbers[done as usize] = project.least_need_of_all(done + 1) as u32;
    }
}
