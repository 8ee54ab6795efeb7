ghost use Rattle.std.specs.Prelude.{◌≡◌, ℕ, ◌+◌, ◌-◌, ◌≤◌, ◌↔◌, [], ◌∷◌, ◌++◌, length, slice_get, Some, IfOk};
ghost use Rattle.sched_base.specs.JobSet.{member};
ghost use Rattle.rcpsp_model.specs.Project.{Project as ProjectValue, IsNonrenewable, IsRenewable};
ghost use Rattle.rcpsp_model.specs.Schedule.{used};
ghost use Rattle.rcpsp_model.specs.Tree.{has_job, last_start, rest_need, entry_at, Follows};
ghost use Rattle.precedence_tree.specs.Active.{AreActive, AreByFinish};
ghost use Rattle.precedence_tree.specs.Needs.{AreNeeds, AreWorks, open_work};
ghost use Rattle.precedence_tree.specs.Frontier.{AreEligible};
ghost use Rattle.precedence_tree.specs.Tails.{IsLongestTail};
ghost use Rattle.precedence_tree.specs.Base.{IsBaseOf};
ghost use Rattle.precedence_tree.specs.Node.{StandsFor, front_before, newest_of, joined};

use crate::active::{Active, done_by};
use crate::base::Expansion;
use crate::frontier::{open_after, open_jobs};
use crate::needs::Needs;
use crate::tails::longest_tail;
use crate::works::{Works, least_work_of_all};
use project_net::Project;
use rcpsp_model::Entry;
use sched_base::{Job, JobSet, List, NoMemory};
use std::alloc::Global;
use std::marker::Model;
use std::mem::size_of;

/// A node of the tree: a front, which is a partial schedule built job by job.
///
/// It is the expanded front that it is a child of, which all children share, and one entry more. The root has none.
#[derive(Drop)]
pub struct Node {
    base: Option<Expansion>,
    entry: Entry,
    finish: u32,
    end: u32,
}

const _: () = prove!(size_of::<Node>() <= 32);

impl Model for Node {
    ghost use Rattle.precedence_tree.specs.Node.{NodeState, front_of, KeepsJobs};

    ghost Value = { NodeState };

    ghost view = { λ n. record { front = front_of n.base n.entry; end = n.end; base = n.base; entry = n.entry; finish = n.finish } };

    ghost invariant = { λ n. KeepsJobs n.base n.entry };
}

fn share_of(base: &Option<Expansion>) -> Result<Option<Expansion>, NoMemory>
    ensures { IfOk result (λ copy. copy ≡ base.now) }
{
    match base {
        Some(base) => {
            let copy = base.share()?;
            Ok(Some(copy))
        }
        None => Ok(None),
    }
}

impl Node {
    /// The node of the empty front, which is one of every project; it takes no memory.
    pub fn root() -> Self
        ensures front { result.front ≡ [] }
        ensures stands { (P : ProjectValue) → StandsFor P result }
    {
        Node {
            base: None,
            entry: Entry {
                job: 0,
                mode: 0,
                start: 0,
            },
            finish: 0,
            end: 0,
        }
    }

    /// A node of the same front.
    pub fn try_copy(&self) -> Result<Self, NoMemory>
        ensures { IfOk result (λ copy. copy ≡ self.now) }
    {
        let entry = self.entry;
        let finish = self.finish;
        let end = self.end;
        let base = share_of(&self.base)?;
        Ok(Node {
            base,
            entry,
            finish,
            end,
        })
    }

    /// The start of the job that was placed last, 0 at the root.
    pub fn last(&self) -> u32
        ensures { result ≡ last_start self.now.front }
    {
        self.entry.start
    }

    /// The greatest finish, 0 at the root.
    pub fn end(&self) -> u32
        ensures { result ≡ self.now.end }
    {
        self.end
    }

    /// How many jobs are placed, 0 to 128.
    pub fn depth(&self) -> u8
        ensures value { result ≡ length self.now.front }
        ensures few { result ≤ 128 }
    {
        match &self.base {
            Some(base) => base.base().front.len() as u8 + 1,
            None => 0,
        }
    }

    /// The entry in a place, from 1 to the depth.
    pub fn entry(&self, place: u8) -> Entry
        requires low { 1 ≤ place }
        requires high { place ≤ length self.now.front }
        ensures { slice_get self.now.front (place - 1) ≡ Some result }
    {
        match &self.base {
            Some(base) => {
                let front = base.base().front.as_slice();
                let index = place as usize - 1;
                if index < front.len() {
                    front[index]
                } else {
                    self.entry
                }
            }
            None => self.entry,
        }
    }

    /// The entries in the order of placing.
    pub fn front(&self, alloc: Global) -> Result<List<Entry>, NoMemory>
        ensures { IfOk result (λ es. es ≡ self.now.front) }
    {
        match &self.base {
            Some(base) => {
                let front = base.base().front.as_slice();
                let mut all = Vec::with_capacity(alloc, front.len() + 1)?;
                all.extend_from_slice(front)?;
                all.push(self.entry)?;
                Ok(List::from_vec(all))
            }
            None => Ok(List::new(alloc)),
        }
    }

    /// The jobs that are placed.
    pub fn placed(&self) -> JobSet
        ensures { (i : ℕ) → 1 ≤ i → member result i ≡ has_job self.now.front i }
    {
        match &self.base {
            Some(base) => base.base().placed.with(Job(self.entry.job)),
            None => JobSet::empty(),
        }
    }
}

// What the front takes and needs, of the project that it is one of.
impl Node {
    /// What the placed jobs need, and the others at least.
    pub(crate) fn needs(&self, project: &Project) -> Needs
        requires { StandsFor project.now self.now }
        ensures { AreNeeds project.now self.now.front result }
    {
        project.known();
        match &self.base {
            Some(base) => {
                base.base()
                    .needs
                    .with(project, self.entry.job, self.entry.mode)
            }
            None => Needs::of_none(project),
        }
    }

    /// The least work of the jobs that aren't placed.
    pub(crate) fn works(&self, project: &Project) -> Works
        requires { StandsFor project.now self.now }
        ensures { AreWorks project.now self.now.front result.rest }
    {
        match &self.base {
            Some(base) => base.base().works.with(project, self.entry.job),
            None => Works::of_none(project),
        }
    }

    /// What the placed jobs need of a nonrenewable resource, 0 to 1,000,000.
    pub fn used(&self, project: &Project, resource: u8) -> u32
        requires node { StandsFor project.now self.now }
        requires resource { IsNonrenewable project.now resource }
        ensures value { result ≡ used project.now self.now.front resource }
        ensures limit { result ≤ 1000000 }
    {
        project.known();
        match &self.base {
            Some(base) => {
                let before = base.base().needs.used[resource as usize - 1];
                before + project.need(self.entry.job, self.entry.mode, resource)
            }
            None => 0,
        }
    }

    /// What the jobs that aren't placed need of a nonrenewable resource at least.
    pub fn rest_need(&self, project: &Project, resource: u8) -> u32
        requires node { StandsFor project.now self.now }
        requires resource { IsNonrenewable project.now resource }
        ensures { result ≡ rest_need project.now self.now.front resource }
    {
        project.known();
        match &self.base {
            Some(base) => {
                let before = base.base().needs.rest[resource as usize - 1];
                before - project.least_need(self.entry.job, resource)
            }
            None => project.least_need_of_all(resource) as u32,
        }
    }

    /// The least work on a renewable resource of the jobs that aren't placed, at most 128 times 10,000,000,000.
    pub fn rest_work(&self, project: &Project, resource: u8) -> u64
        requires node { StandsFor project.now self.now }
        requires resource { IsRenewable project.now resource }
        ensures value { result ≡ open_work project.now self.now.front resource }
        ensures limit { result ≤ 1280000000000 }
    {
        project.known();
        match &self.base {
            Some(base) => {
                let before = base.base().works.rest[resource as usize - 1];
                before - project.least_work(self.entry.job, resource)
            }
            None => least_work_of_all(project, resource),
        }
    }

    /// The job that was placed last, where it takes time: it is active then.
    pub fn newest_active(&self) -> Option<Active>
        ensures { result ≡ newest_of self.now.entry self.now.finish }
    {
        if self.entry.start < self.finish {
            Some(Active {
                entry: self.entry,
                finish: self.finish,
            })
        } else {
            None
        }
    }

    /// The other active jobs, by their finishes.
    pub fn older_active(&self, project: &Project) -> &[Active]
        requires { StandsFor project.now self.now }
        ensures active { AreActive project.now self.now.front (joined (newest_of self.now.entry self.now.finish) result.now) }
        ensures order { AreByFinish result.now }
    {
        project.known();
        match &self.base {
            Some(base) => {
                let active = base.base().active.as_slice();
                let done = done_by(active, self.entry.start);
                &active[done..]
            }
            None => &[],
        }
    }

    /// The jobs that can be placed next.
    pub fn eligible(&self, project: &Project) -> JobSet
        requires { StandsFor project.now self.now }
        ensures { AreEligible project.now self.now.front result }
    {
        project.known();
        match &self.base {
            Some(base) => {
                let base = base.base();
                let job = self.entry.job;
                open_after(project, base.eligible, base.placed.with(Job(job)), job)
            }
            None => open_jobs(project, JobSet::empty()),
        }
    }

    /// The greatest tail of the jobs that could be placed next before the last one was, in periods; at the root that of
    /// those that can be; 0 where there are none.
    pub fn longest_tail_before(&self, project: &Project) -> u32
        requires { StandsFor project.now self.now }
        ensures value { IsLongestTail project.now (front_before self.now.base) result }
        ensures limit { result ≤ 1280000 }
    {
        project.known();
        match &self.base {
            Some(base) => base.base().longest_tail,
            None => {
                let open = open_jobs(project, JobSet::empty());
                longest_tail(project, open)
            }
        }
    }
}

/// The node one entry on from an expanded front, which may follow it; it takes no memory.
pub(crate) fn step(
    project: &Project,
    expansion: &Expansion,
    job: u8,
    mode: u8,
    start: u32,
) -> Result<Node, NoMemory>
    requires base { IsBaseOf project.now expansion.now }
    requires follows { Follows project.now expansion.now.front (entry_at job mode start) }
    ensures front { IfOk result (λ next. next.front ≡ expansion.now.front ++ entry_at job mode start ∷ []) }
    ensures stands { IfOk result (StandsFor project.now) }
{
    project.known();
    let finish = start + project.duration(job, mode);
    let end = expansion.base().end.max(finish);
    let base = expansion.share()?;
    Ok(Node {
        base: Some(base),
        entry: Entry { job, mode, start },
        finish,
        end,
    })
}
