//! Releasing a job on an open day: what is refused is decided first, and then the job is accepted.

ghost use Rattle.std.specs.Prelude.{◌≡◌, ◌+◌, ◌<◌, [], ◌∷◌, ◌++◌, Some, None, Ok, Err};
ghost use Rattle.std.specs.Result.{result_err};
ghost use Rattle.scheduler.specs.Day.{release_refusal, released};
ghost use Rattle.scheduler.specs.Marks.{or_no_room};
ghost use Rattle.scheduler.specs.Model.{model};
ghost use Rattle.scheduler.specs.Outcomes.{Refused, Releases};
ghost use Rattle.scheduler.specs.Places.{first_place};

use super::{CALL_WORDS, Day, MOST_PENDING};
use crate::job::{Job, Stage};
use crate::payload::Payload;
use crate::recording::record_release;
use calls::refusal::Refusal;
use cues::cue::Cue;
use ordering::Before;
use recorder::Trace;

/// The largest sum of the budgets that a day accepts.
const LARGEST_SUM: u32 = 134_217_727;

impl Day {
    /// Releases a job with its deadline and budget, and answers its number.
    // Two numbers and no struct of them: each is checked, kept and recorded by itself.
    pub fn release<T: Trace>(
        &mut self,
        deadline: u32,
        budget: u32,
        trace: &mut T,
    ) -> Result<u32, Refusal>
        ensures { elim result [ Ok number ↦ Releases (model self.old) (model self.new) (T.Trace.page trace.old) (T.Trace.page trace.new) deadline budget number | Err refusal ↦ Refused (or_no_room (T.Trace.page trace.old) 10 (release_refusal (model self.old) deadline budget)) refusal ((self.new ≡ self.old) × (trace.new ≡ trace.old)) ] }
    {
        self.check_job(deadline, budget)?;
        trace.reserve(CALL_WORDS)?;
        let number = self.accept(deadline, budget);
        record_release(
            Payload::of(number),
            Payload::of(deadline),
            Payload::of(budget),
            trace,
        );
        Ok(number)
    }

    /// Why a job is refused, the trace left aside.
    fn check_job(&self, deadline: u32, budget: u32) -> Result<(), Refusal>
        ensures { result_err result ≡ release_refusal (model self.now) deadline budget }
    {
        Cue::check(self.clock, deadline, budget)?;
        if self.pending.is_full() {
            return Err(Refusal::Pending {
                most: MOST_PENDING as u32,
            });
        }
        if self.budgets + budget > LARGEST_SUM {
            return Err(Refusal::Budgets { sum: self.budgets });
        }
        Ok(())
    }

    /// Takes a job in that nothing refuses, under the next number.
    fn accept(&mut self, deadline: u32, budget: u32) -> u32
        requires { release_refusal (model self.old) deadline budget ≡ None }
        ensures number { result ≡ (model self.old).accepted + 1 }
        ensures day { model self.new ≡ released (model self.old) deadline budget }
    {
        let number = self.accepted + 1;
        let job = Job {
            number,
            deadline,
            budget,
            remaining: budget * self.table.top_rate(),
            stage: Stage::Waiting,
        };
        let first = self.first_with(&job);
        self.pending.push(job);
        self.first = Some(first);
        self.accepted = number;
        self.budgets += budget;
        number
    }

    /// The place of the first job once this one, with a larger number than any, stands behind the others.
    fn first_with(&self, job: &Job) -> usize
        requires { (model self.now).accepted < job.now.number }
        ensures { first_place (self.now.pending.items ++ job.now ∷ []) ≡ Some result }
    {
        match self.first {
            Some(place) if !job.is_before(&self.pending[place]) => place,
            _ => self.pending.len(),
        }
    }
}
