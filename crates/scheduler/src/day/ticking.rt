//! One tick of an open day: what is refused is decided first, then the first pending job is chosen and run, and what comes
//! of it is told and recorded.

ghost use Rattle.std.specs.Prelude.{◌≡◌, ◌<◌, Ok, Err};
ghost use Rattle.scheduler.specs.Day.{Told, after_tick, tick_refusal};
ghost use Rattle.scheduler.specs.Marks.{or_no_room};
ghost use Rattle.scheduler.specs.Model.{model};
ghost use Rattle.scheduler.specs.Outcomes.{Asked, Refused, Rendered, Ticks};
ghost use Rattle.scheduler.specs.Writable.{TickedFits};

use super::{CALL_WORDS, Day, LAST_CLOCK};
use crate::recording::record_tick;
use calls::refusal::Refusal;
use calls::ticked::Ticked;
use rates::Policy;
use recorder::Trace;
use renderers::renderer::Renderer;

impl Day {
    /// Lets one tick go by, and tells what happened in it.
    ///
    /// The policy is asked only where another job runs than in the tick before, the renderer wherever a job runs.
    pub fn tick<P: Policy, R: Renderer, T: Trace>(
        &mut self,
        policy: &mut P,
        renderer: &mut R,
        trace: &mut T,
    ) -> Result<Ticked, Refusal>
        ensures day { elim result [ Ok t ↦ Ticks (model self.old) (model self.new) (T.Trace.page trace.old) (T.Trace.page trace.new) t | Err refusal ↦ Refused (or_no_room (T.Trace.page trace.old) 10 (tick_refusal (model self.old))) refusal ((self.new ≡ self.old) × (trace.new ≡ trace.old)) ] }
        ensures policy { elim result [ Ok t ↦ Asked P.Policy.tells (model self.old) t policy.old policy.new | Err refusal ↦ policy.new ≡ policy.old ] }
        ensures renderer { elim result [ Ok t ↦ Rendered R.Renderer.meaning R.Renderer.tells t renderer.old renderer.new | Err refusal ↦ renderer.new ≡ renderer.old ] }
    {
        if self.clock >= LAST_CLOCK {
            return Err(Refusal::Clock { clock: self.clock });
        }
        trace.reserve(CALL_WORDS)?;
        let ticked = self.pass(policy, renderer);
        record_tick(ticked, trace);
        Ok(ticked)
    }

    /// The tick itself: idle, or a run of the first pending job.
    fn pass<P: Policy, R: Renderer>(&mut self, policy: &mut P, renderer: &mut R) -> Ticked
        requires { (model self.old).clock < 134217727 }
        ensures told { Told (model self.old) result }
        ensures day { model self.new ≡ after_tick (model self.old) result }
        ensures fits { TickedFits result }
        ensures policy { Asked P.Policy.tells (model self.old) result policy.old policy.new }
        ensures renderer { Rendered R.Renderer.meaning R.Renderer.tells result renderer.old renderer.new }
    {
        let Some(place) = self.first else {
            self.clock += 1;
            return Ticked::Idle;
        };
        let chosen = self.choose(place, policy);
        let ran = chosen.run(renderer);
        self.settle(&chosen, &ran);
        Ticked::Ran(ran)
    }
}
