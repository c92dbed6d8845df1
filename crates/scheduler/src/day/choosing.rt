//! Choosing the job that a tick runs: which job, up to which bound, at which level. Nothing is changed yet but the state
//! of a policy that was asked.

ghost use Rattle.std.specs.Prelude.{◌≡◌, ◌*◌, ◌≤◌, false, length, Some, None};
ghost use Rattle.rates.specs.Policy.{Sufficient};
ghost use Rattle.rates.specs.Table.{rate_of, top_rate};
ghost use Rattle.scheduler.specs.declared.job.Stage.TheVariants.{Running};
ghost use Rattle.scheduler.specs.Chooses.{Asks, Chooses, Stands, free_from, starting_bound};
ghost use Rattle.scheduler.specs.Day.{bound_of, runner, runs};
ghost use Rattle.scheduler.specs.Good.{GoodJob};
ghost use Rattle.scheduler.specs.Model.{model};
ghost use Rattle.scheduler.specs.Places.{first_place};

use super::Day;
use crate::chosen::Chosen;
use crate::job::{Job, Stage};
use calls::ticked::Switch;
use rates::{Level, Policy, Work};

impl Day {
    /// The first job, which stands at this place, with all that is decided before it runs. The policy is asked where the
    /// job did not run in the tick before.
    pub(super) fn choose<P: Policy>(&self, place: usize, policy: &mut P) -> Chosen
        requires { first_place (model self.now).pending ≡ Some place }
        ensures chosen { Chooses (model self.now) result }
        ensures asked { Asks P.Policy.tells (model self.now) result.job result.switch policy.old policy.new }
    {
        let job = self.pending[place];
        match job.stage {
            Stage::Running { bound, level } => self.going_on(place, job, bound, level),
            Stage::Waiting | Stage::Aside { .. } => self.switching(place, job, policy),
        }
    }

    /// A first job that ran in the tick before keeps its bound and its level.
    fn going_on(&self, place: usize, job: Job, bound: u32, level: Level) -> Chosen
        requires { Stands (model self.now) place job × (job.stage ≡ Running bound level) }
        ensures { (Chooses (model self.now) result) × ((result.job ≡ job) × (result.switch ≡ None)) }
    {
        Chosen {
            place,
            job,
            switch: None,
            bound,
            level,
            rate: self.rate_of(level),
        }
    }

    /// A first job that did not run in the tick before is switched to.
    fn switching<P: Policy>(&self, place: usize, job: Job, policy: &mut P) -> Chosen
        requires { Stands (model self.now) place job × (runs job ≡ false) }
        ensures chosen { Chooses (model self.now) result }
        ensures asked { Asks P.Policy.tells (model self.now) result.job result.switch policy.old policy.new }
    {
        let bound = self.bound_of(&job);
        let work = Work {
            remaining: job.remaining,
            ticks: bound - self.clock,
        };
        let level = self.level_for(work, policy);
        let switch = Switch {
            aside: self.runner(),
            turn: job.stage.turn(),
            level,
            bound,
        };
        Chosen {
            place,
            job,
            switch: Some(switch),
            bound,
            level,
            rate: self.rate_of(level),
        }
    }

    /// The clock at which a pending job has to be over if it runs now.
    fn bound_of(&self, job: &Job) -> u32
        requires { GoodJob (model self.now) job.now }
        ensures { result ≡ bound_of (model self.now) job.now }
    {
        match job.stage {
            Stage::Waiting => self.starting_bound(job),
            Stage::Running { bound, .. } => bound,
            Stage::Aside { bound, noted } => bound + self.handed.bound - noted,
        }
    }

    /// The bound of a job that starts: where it sets another aside, its budget counts from the clock on.
    fn starting_bound(&self, job: &Job) -> u32
        requires { job.now.budget ≤ 65535 }
        ensures { result ≡ starting_bound (model self.now) job.now }
    {
        if self.running.is_some() {
            return self.clock + job.budget;
        }
        self.free_from(job) + job.budget
    }

    /// From where on a job that starts by itself has its budget: the handed bound, unless that was handed by a job due
    /// later or has passed.
    fn free_from(&self, job: &Job) -> u32
        ensures { result ≡ free_from (model self.now) job.now }
    {
        if job.deadline < self.handed.deadline || self.handed.bound < self.clock {
            self.clock
        } else {
            self.handed.bound
        }
    }

    /// The number of the job that ran in the tick before, if it is pending.
    fn runner(&self) -> Option<u32>
        ensures { result ≡ runner (model self.now).pending }
    {
        let place = self.running?;
        Some(self.pending[place].number)
    }

    /// The level that the policy picks for some work. There is time enough, so that it picks one.
    fn level_for<P: Policy>(&self, work: Work, policy: &mut P) -> Level
        requires { work.remaining ≤ top_rate (model self.now).rates * work.ticks }
        ensures enough { Sufficient (model self.now).rates work.remaining work.ticks result.0 }
        ensures told { (work.remaining ≤ top_rate (model self.now).rates * work.ticks) × P.Policy.tells policy.old (model self.now).rates work.remaining work.ticks (Some result.0) policy.new }
    {
        policy.choose(&self.table, work).unwrap()
    }

    /// The rate of a level of the table.
    fn rate_of(&self, level: Level) -> u32
        requires { (1 ≤ level.0) × (level.0 ≤ length (model self.now).rates) }
        ensures { result ≡ rate_of (model self.now).rates level.0 }
    {
        self.table.rate(level).unwrap()
    }
}
