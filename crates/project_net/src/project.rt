ghost use Rattle.std.specs.Prelude.{◌≡◌, ℕ, ◌<◌, ◌≤◌, ◌↔◌, IsTrue, length, slice_get, sum_by, All, Some, IfOk, IfErr, IfSome, IfNone, OnOk};

use crate::causes::ModeCauses;
use crate::draft::{BuildRefusal, Draft};
use crate::feasible;
use crate::least::place_in;
use crate::network::Network;
use crate::prepared::{Prepared, prepare};
use crate::reach::lowest_on_cycle;
use crate::refusal::first_refusal;
use crate::schedule::Schedule;
use crate::stretches::{Stretch, place_at};
use rcpsp_model::CalRow;
use sched_base::{JobSet, NoMemory};
use std::alloc::Global;
use std::marker::Model;

/// A project: jobs with their modes, without a cycle in their order, and what there is of each resource.
///
/// Jobs, modes and resources count from 1.
#[derive(Drop)]
pub struct Project {
    network: Network,
    prepared: Prepared,
}

impl Model for Project {
    ghost use Rattle.rcpsp_model.specs.Project.{Project as ProjectValue};
    ghost use Rattle.project_net.specs.Prepared.{IsPrepared};

    ghost Value = { ProjectValue };

    ghost view = { λ p. p.network };

    ghost invariant = { λ p. IsPrepared p.network p.prepared };
}

impl Project {
    ghost use Rattle.rcpsp_model.specs.Project.{IsProject, IsAcyclic, IsJob, IsMode, IsRenewable, IsNonrenewable, job_count, jobs, modes_of, mode_of, renewables, nonrenewables, duration, request, need, capacity, budget, is_before};
    ghost use Rattle.rcpsp_model.specs.Schedule.{IsFeasible, cap, calm, end_of, entries};
    ghost use Rattle.rcpsp_model.specs.Chain.{IsLeast, least_duration, IsTail};
    ghost use Rattle.rcpsp_model.specs.Modes.{least_need, least_work, LacksCapacity, IsExecutable, IsInefficientBy, IsEfficient};
    ghost use Rattle.sched_base.specs.JobSet.{member};
    ghost use Rattle.project_net.specs.Draft.{project_of};
    ghost use Rattle.rcpsp_model.specs.Rank.{IsLowestFirst, IsRank};
    ghost use Rattle.project_net.specs.Order.{IsTopological};
    ghost use Rattle.project_net.specs.Refusal.{IsRefusal, IsSound};
    ghost use Rattle.project_net.specs.Stretches.{AreStretches};
    ghost use Rattle.project_net.specs.Causes.{AreCauses};
    ghost use Rattle.project_net.specs.Budget.{with_budget};

    /// The project of a network without a cycle.
    fn of_network(alloc: Global, network: Network) -> Result<Project, NoMemory>
        requires { IsAcyclic network }
        ensures { IfOk result (λ p. p ≡ network) }
    {
        let prepared = prepare(alloc, &network)?;
        Ok(Project { network, prepared })
    }

    /// The project that a draft describes, or the first of its faults.
    pub fn build(alloc: Global, draft: Draft) -> Result<Project, BuildRefusal>
        ensures sound { OnOk result (IsSound draft) }
        ensures ok { IfOk result (λ p. p ≡ project_of draft) }
        ensures refused { IfErr result (IsRefusal draft) }
    {
        if let Some(refusal) = first_refusal(&draft) {
            return Err(refusal);
        }
        let network = Network::of_draft(alloc, draft)?;
        match lowest_on_cycle(alloc, &network)? {
            Some(job) => Err(BuildRefusal::Cycle { job }),
            None => Ok(Project::of_network(alloc, network)?),
        }
    }

    /// The project that differs in the budget of one nonrenewable resource, which is 0 to 1,000,000.
    pub fn with_budget(&self, alloc: Global, resource: u8, budget: u32) -> Result<Project, NoMemory>
        requires resource { IsNonrenewable self.now resource }
        requires budget { budget ≤ 1000000 }
        ensures { IfOk result (λ p. p ≡ with_budget self.now resource budget) }
    {
        let network = self.network.with_budget(alloc, resource, budget)?;
        Project::of_network(alloc, network)
    }

    /// What is known of every project; it does nothing.
    pub fn known(&self)
        ensures { IsProject self.now }
    {
        let _ = &self.prepared;
    }

    /// The number of jobs, 1 to 128.
    pub fn jobs(&self) -> u8
        ensures value { result ≡ job_count self.now }
        ensures some { 1 ≤ result }
        ensures few { result ≤ 128 }
    {
        self.network.jobs()
    }

    /// The number of renewable resources, 0 to 16.
    pub fn renewables(&self) -> u8
        ensures value { result ≡ renewables self.now }
        ensures few { result ≤ 16 }
    {
        self.network.renewables()
    }

    /// The number of nonrenewable resources, 0 to 16.
    pub fn nonrenewables(&self) -> u8
        ensures value { result ≡ nonrenewables self.now }
        ensures few { result ≤ 16 }
    {
        self.network.nonrenewables()
    }

    /// The number of modes of a job, 1 to 16.
    pub fn modes(&self, job: u8) -> u8
        requires { IsJob self.now job }
        ensures value { result ≡ length (modes_of self.now job) }
        ensures some { 1 ≤ result }
        ensures few { result ≤ 16 }
    {
        self.network.modes(job)
    }

    /// The periods that a job runs in a mode, 0 to 10,000.
    pub fn duration(&self, job: u8, mode: u8) -> u32
        requires job { IsJob self.now job }
        requires mode { IsMode self.now job mode }
        ensures value { result ≡ duration self.now job mode }
        ensures limit { result ≤ 10000 }
    {
        self.network.duration(job, mode)
    }

    /// What a job in a mode asks of a renewable resource in each of its periods, 0 to 1,000,000.
    pub fn request(&self, job: u8, mode: u8, resource: u8) -> u32
        requires job { IsJob self.now job }
        requires mode { IsMode self.now job mode }
        requires resource { IsRenewable self.now resource }
        ensures value { result ≡ request self.now job mode resource }
        ensures limit { result ≤ 1000000 }
    {
        self.network.request(job, mode, resource)
    }

    /// What a job in a mode needs of a nonrenewable resource in all, 0 to 1,000,000.
    pub fn need(&self, job: u8, mode: u8, resource: u8) -> u32
        requires job { IsJob self.now job }
        requires mode { IsMode self.now job mode }
        requires resource { IsNonrenewable self.now resource }
        ensures value { result ≡ need self.now job mode resource }
        ensures limit { result ≤ 1000000 }
    {
        self.network.need(job, mode, resource)
    }

    /// What a job in a mode asks of each renewable resource in each of its periods, by resource: 0 to 1,000,000 each.
    pub fn requests(&self, job: u8, mode: u8) -> &[u32]
        requires job { IsJob self.now job }
        requires mode { IsMode self.now job mode }
        ensures value { result.now ≡ (mode_of self.now job mode).requests }
        ensures size { length result.now ≡ renewables self.now }
        ensures limit { All (λ r. r ≤ 1000000) result.now }
    {
        self.network.requests(job, mode)
    }

    /// What a job in a mode needs of each nonrenewable resource in all, by resource: 0 to 1,000,000 each.
    pub fn needs(&self, job: u8, mode: u8) -> &[u32]
        requires job { IsJob self.now job }
        requires mode { IsMode self.now job mode }
        ensures value { result.now ≡ (mode_of self.now job mode).needs }
        ensures size { length result.now ≡ nonrenewables self.now }
        ensures limit { All (λ r. r ≤ 1000000) result.now }
    {
        self.network.needs(job, mode)
    }

    /// What there is of each renewable resource in each period that no row of the calendar has, by resource: 0 to
    /// 1,000,000 each.
    pub fn capacities(&self) -> &[u32]
        ensures value { result.now ≡ self.now.capacities }
        ensures size { length result.now ≡ renewables self.now }
        ensures limit { All (λ c. c ≤ 1000000) result.now }
    {
        self.network.capacities()
    }

    /// What there is of each nonrenewable resource in all, by resource: 0 to 1,000,000 each.
    pub fn budgets(&self) -> &[u32]
        ensures value { result.now ≡ self.now.budgets }
        ensures size { length result.now ≡ nonrenewables self.now }
        ensures limit { All (λ b. b ≤ 1000000) result.now }
    {
        self.network.budgets()
    }

    /// What there is of a renewable resource in each period that no row of the calendar has, 0 to 1,000,000.
    pub fn capacity(&self, resource: u8) -> u32
        requires { IsRenewable self.now resource }
        ensures value { result ≡ capacity self.now resource }
        ensures limit { result ≤ 1000000 }
    {
        self.network.capacity(resource)
    }

    /// What there is of a renewable resource in a period, 0 to 1,000,000.
    pub fn capacity_at(&self, resource: u8, period: u32) -> u32
        requires { IsRenewable self.now resource }
        ensures value { result ≡ cap self.now resource period }
        ensures limit { result ≤ 1000000 }
    {
        let stretches = self.stretches(resource);
        stretches[place_at(stretches, period)].capacity
    }

    /// What there is of a renewable resource, as stretches of periods: the first from period 0 on, each up to the next, and
    /// the last for good. A resource without a row in the calendar has one.
    pub fn stretches(&self, resource: u8) -> &[Stretch]
        requires { IsRenewable self.now resource }
        ensures { AreStretches self.now resource result.now }
    {
        let first = self.prepared.stretches.firsts[resource as usize - 1];
        let next = self.prepared.stretches.firsts[resource as usize];
        &self.prepared.stretches.stretches.as_slice()[first..next]
    }

    /// The greatest end of a row of the calendar, 0 to 10,000, and 0 where there is none: from this period on each capacity
    /// is whole.
    pub fn calm(&self) -> u32
        ensures value { result ≡ calm self.now }
        ensures limit { result ≤ 10000 }
    {
        self.prepared.stretches.calm
    }

    /// The number of rows of the calendar, 0 to 256.
    pub fn cal_rows(&self) -> u32
        ensures value { result ≡ length self.now.calendar }
        ensures few { result ≤ 256 }
    {
        self.network.known();
        self.network.calendar().len() as u32
    }

    /// The row of the calendar at a place, from 0.
    pub fn cal_row(&self, place: u32) -> CalRow
        requires { place < length self.now.calendar }
        ensures { slice_get self.now.calendar place ≡ Some result }
    {
        self.network.calendar()[place as usize]
    }

    /// What there is of a nonrenewable resource in all, 0 to 1,000,000.
    pub fn budget(&self, resource: u8) -> u32
        requires { IsNonrenewable self.now resource }
        ensures value { result ≡ budget self.now resource }
        ensures limit { result ≤ 1000000 }
    {
        self.network.budget(resource)
    }

    /// The direct predecessors of a job.
    pub fn preds(&self, job: u8) -> JobSet
        requires { IsJob self.now job }
        ensures { (i : ℕ) → 1 ≤ i → member result i ≡ is_before self.now i job }
    {
        self.network.preds(job)
    }

    /// The direct successors of a job.
    pub fn succs(&self, job: u8) -> JobSet
        requires { IsJob self.now job }
        ensures { (j : ℕ) → 1 ≤ j → member result j ≡ is_before self.now job j }
    {
        self.network.succs(job)
    }

    /// The least duration over the modes of a job, 0 to 10,000.
    pub fn least_duration(&self, job: u8) -> u32
        requires { IsJob self.now job }
        ensures value { result ≡ least_duration self.now job }
        ensures limit { result ≤ 10000 }
    {
        self.prepared.least.durations[job as usize - 1]
    }

    /// The least that a job needs of a nonrenewable resource, over all its modes: 0 to 1,000,000.
    pub fn least_need(&self, job: u8, resource: u8) -> u32
        requires job { IsJob self.now job }
        requires resource { IsNonrenewable self.now resource }
        ensures value { result ≡ least_need self.now job resource }
        ensures limit { result ≤ 1000000 }
    {
        let place = place_in(self.network.nonrenewables(), job, resource);
        self.prepared.least.needs[place]
    }

    /// The least work of a job on a renewable resource, over all its modes: periods times request, 0 to 10,000,000,000.
    pub fn least_work(&self, job: u8, resource: u8) -> u64
        requires job { IsJob self.now job }
        requires resource { IsRenewable self.now resource }
        ensures value { result ≡ least_work self.now job resource }
        ensures limit { result ≤ 10000000000 }
    {
        let place = place_in(self.network.renewables(), job, resource);
        self.prepared.least.works[place]
    }

    /// The sum over all jobs of the least that each needs of a nonrenewable resource: 0 to 128,000,000.
    pub fn least_need_of_all(&self, resource: u8) -> u64
        requires { IsNonrenewable self.now resource }
        ensures value { result ≡ sum_by (λ j. least_need self.now j resource) (jobs self.now) }
        ensures limit { result ≤ 128000000 }
    {
        self.prepared.least.needs_of_all[resource as usize - 1]
    }

    /// The causes for which no front comes of a job in a mode.
    fn causes_of(&self, job: u8, mode: u8) -> ModeCauses
        requires job { IsJob self.now job }
        requires mode { IsMode self.now job mode }
        ensures { AreCauses self.now job mode result }
    {
        self.prepared.causes[self.network.place(job, mode)]
    }

    /// The lowest renewable resource of which a mode that takes time asks more than its capacity.
    pub fn lacking(&self, job: u8, mode: u8) -> Option<u8>
        requires job { IsJob self.now job }
        requires mode { IsMode self.now job mode }
        ensures some { IfSome result (IsLeast (LacksCapacity self.now job mode)) }
        ensures none { IfNone result (IsExecutable self.now job mode) }
    {
        self.causes_of(job, mode).lacking
    }

    /// The lowest mode that makes a mode of a job inefficient: one that takes no more, and takes less or has the lower
    /// number (Sprecher, Hartmann and Drexl 1997).
    pub fn inefficient(&self, job: u8, mode: u8) -> Option<u8>
        requires job { IsJob self.now job }
        requires mode { IsMode self.now job mode }
        ensures by { IfSome result (IsLeast (IsInefficientBy self.now job mode)) }
        ensures none { IfNone result (IsEfficient self.now job mode) }
    {
        self.causes_of(job, mode).inefficient
    }

    /// The greatest sum of least durations over the chains of successors that begin with a job, that job included: 0 to
    /// 1,280,000.
    pub fn tail(&self, job: u8) -> u32
        requires { IsJob self.now job }
        ensures value { IsTail self.now job result }
        ensures limit { result ≤ 1280000 }
    {
        self.prepared.tails[job as usize - 1]
    }

    /// The jobs in the order that repeatedly takes the lowest job whose predecessors were taken.
    pub fn in_order(&self) -> &[u8]
        ensures lowest_first { IsLowestFirst self.now result.now }
        ensures topological { IsTopological self.now result.now }
    {
        self.prepared.order.as_slice()
    }

    /// The place of a job, from 1, in the order that repeatedly takes the lowest job whose predecessors were taken.
    pub fn rank(&self, job: u8) -> u8
        requires { IsJob self.now job }
        ensures value { IsRank self.now job result }
        ensures few { result ≤ job_count self.now }
    {
        self.prepared.ranks[job as usize - 1]
    }

    /// Whether a job has a mode of this number.
    pub fn has_mode(&self, job: u8, mode: u8) -> bool
        requires { IsJob self.now job }
        ensures { IsTrue result ↔ IsMode self.now job mode }
    {
        1 <= mode && mode <= self.modes(job)
    }

    /// Whether a schedule gives each job one of its modes.
    pub fn has_modes_of(&self, schedule: &Schedule) -> bool
        requires { length schedule.now ≡ job_count self.now }
        ensures { IsTrue result ↔ All (λ e. IsMode self.now e.job e.mode) (entries schedule.now) }
    {
        for done in 0..self.jobs() {
            let place = schedule.place(done + 1);
            if !self.has_mode(done + 1, place.mode) {
                return false;
            }
        }
        true
    }

    /// Whether a schedule is feasible: each job in one of its modes and after its predecessors, no usage above what there is
    /// of a renewable resource, and no needs above a budget. It takes no memory.
    pub fn is_feasible(&self, schedule: &Schedule) -> bool
        requires whole { length schedule.now ≡ job_count self.now }
        requires starts { All (λ p. p.start ≤ 999999999) schedule.now }
        ensures { IsTrue result ↔ IsFeasible self.now schedule.now }
    {
        feasible::is_feasible(self, schedule)
    }

    /// The greatest finish of a schedule.
    pub fn end(&self, schedule: &Schedule) -> u32
        requires whole { length schedule.now ≡ job_count self.now }
        requires modes { All (λ e. IsMode self.now e.job e.mode) (entries schedule.now) }
        requires starts { All (λ p. p.start ≤ 999999999) schedule.now }
        ensures value { result ≡ end_of self.now (entries schedule.now) }
        ensures limit { result ≤ 1000009999 }
    {
        let mut end = 0;
        for done in 0..self.jobs() {
            let place = schedule.place(done + 1);
            end = end.max(place.start + self.duration(done + 1, place.mode));
        }
        end
    }
}
