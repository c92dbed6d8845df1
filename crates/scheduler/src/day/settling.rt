//! What a tick that ran a job makes of the day, once the renderer has answered.

ghost use Rattle.std.specs.Prelude.{◌≡◌, ◌<◌, ◌≤◌, length};
ghost use Rattle.std.specs.List.{remove};
ghost use Rattle.scheduler.specs.Chooses.{Chooses};
ghost use Rattle.scheduler.specs.Day.{after_run, make_way, told};
ghost use Rattle.scheduler.specs.Good.{running};
ghost use Rattle.scheduler.specs.Model.{model};
ghost use Rattle.scheduler.specs.Places.{runner_place};

use super::{Day, MOST_PENDING};
use crate::chosen::Chosen;
use crate::handed::Handed;
use crate::job::Job;
use arrayvec::ArrayVec;
use calls::ticked::Ran;
use ordering::first_of;

impl Day {
    /// Lets a tick go by in which the chosen job ran, and told this: the job stays pending with less remaining, or it is
    /// over and hands its bound and its deadline on.
    pub(super) fn settle(&mut self, chosen: &Chosen, ran: &Ran)
        requires chosen { Chooses (model self.old) chosen.now }
        requires early { (model self.old).clock < 134217727 }
        requires told { ran.now ≡ told (model self.old) chosen.now.job chosen.now.level ran.now.answer }
        ensures { model self.new ≡ after_run (model self.old) chosen.now.job ran.now }
    {
        let runner = self.running;
        let clock = self.clock;
        make_way(&mut self.pending, &chosen.job, runner, clock);
        self.clock = clock + 1;
        match ran.ending {
            None => {
                self.pending[chosen.place] = chosen.run_on();
                self.running = Some(chosen.place);
            }
            Some(_) => {
                take_out(&mut self.pending, chosen.place);
                self.first = first_of(self.pending.as_slice());
                self.running = None;
                self.handed = Handed {
                    bound: chosen.bound,
                    deadline: chosen.job.deadline,
                };
            }
        }
    }
}

/// Sets the job that ran in the tick before aside, with the clock noted, unless it is the chosen one.
fn make_way(
    pending: &mut ArrayVec<Job, MOST_PENDING>,
    chosen: &Job,
    runner: Option<usize>,
    clock: u32,
)
    requires { (runner_place pending.old.items ≡ runner) × (running pending.old.items ≤ 1) }
    ensures { pending.new.items ≡ make_way chosen.now clock pending.old.items }
{
    if chosen.stage.is_running() {
        return;
    }
    if let Some(place) = runner {
        pending[place].stage = pending[place].stage.set_aside(clock);
    }
}

/// Takes the job at a place out; those behind it move up.
// Not by the vector's `remove`: that moves them by a function of C, which the archive for C then wants from outside.
fn take_out(pending: &mut ArrayVec<Job, MOST_PENDING>, place: usize)
    requires { place < length pending.old.items }
    ensures { pending.new.items ≡ remove pending.old.items place }
{
    pending.as_mut_slice().copy_within(place + 1.., place);
    pending.pop();
}
