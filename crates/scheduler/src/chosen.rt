//! The job that a tick runs, with all that is decided before the renderer runs it.

ghost use Rattle.std.specs.Prelude.{◌≡◌};
ghost use Rattle.renderers.specs.Requests.{heard};
ghost use Rattle.scheduler.specs.Chooses.{run_on, said};
ghost use Rattle.scheduler.specs.Day.{ending_of};

use crate::job::{Job, Stage};
use calls::ticked::{Ending, Ran, Switch};
use rates::Level;
use renderers::answer::Answer;
use renderers::renderer::Renderer;

/// The chosen job, how it comes to run and how fast.
// The switch tells its bound and level again: it is told as it stands, and a job without a switch has them too.
#[derive(Clone, Copy)]
pub(crate) struct Chosen {
    /// Where the job stands among those that are pending.
    pub(crate) place: usize,
    pub(crate) job: Job,
    /// Where the job did not run in the tick before.
    pub(crate) switch: Option<Switch>,
    /// The clock at which the job has to be over.
    pub(crate) bound: u32,
    pub(crate) level: Level,
    /// The rate of the level.
    pub(crate) rate: u32,
}

impl Chosen {
    /// Has the renderer run the job for the tick, and tells what came of it.
    pub(crate) fn run<R: Renderer>(&self, renderer: &mut R) -> Ran
        ensures told { result ≡ said self.now result.answer }
        ensures heard { R.Renderer.meaning renderer.new ≡ heard (R.Renderer.meaning renderer.old) self.now.job.number self.now.rate result.answer }
        ensures ran { R.Renderer.tells renderer.old self.now.job.number self.now.rate result.answer renderer.new }
    {
        let answer = renderer.run(self.job.number, self.rate);
        let remaining = self.job.remaining.saturating_sub(self.rate);
        Ran {
            job: self.job.number,
            switch: self.switch,
            rate: self.rate,
            answer,
            ending: ending_of(answer, remaining),
        }
    }

    /// The job where it is not over with the tick.
    pub(crate) fn run_on(&self) -> Job
        ensures { result ≡ run_on self.now.job self.now.bound self.now.level self.now.rate }
    {
        Job {
            remaining: self.job.remaining.saturating_sub(self.rate),
            stage: Stage::Running {
                bound: self.bound,
                level: self.level,
            },
            ..self.job
        }
    }
}

/// How the renderer's answer ends a job of which this much remains after the tick.
fn ending_of(answer: Answer, remaining: u32) -> Option<Ending>
    ensures { result ≡ ending_of answer remaining }
{
    match answer {
        Answer::Running if remaining > 0 => None,
        Answer::Running => Some(Ending::Cut),
        Answer::Finished => Some(Ending::Finished),
        Answer::Failed(code) => Some(Ending::Failed(code)),
    }
}
