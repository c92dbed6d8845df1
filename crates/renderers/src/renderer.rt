//! What it is to be a renderer. Whoever keeps the clock asks one to play a job for a tick, at a rate, and is told how the
//! job stands; any answer may come at any tick.

ghost use Rattle.std.specs.Prelude.{◌≡◌, ℕ};
ghost use Rattle.renderers.specs.declared.answer.Answer.{Answer};
ghost use Rattle.renderers.specs.declared.heard.Heard.{Heard};
ghost use Rattle.renderers.specs.Requests.{heard};

use crate::answer::Answer;

/// Plays jobs, one tick at a request.
pub trait Renderer {
    // What it has been asked for so far, and what it answered last.
    ghost meaning: { Self → Heard };

    // What a renderer tells of its answer beyond the meaning: a relation of its state before, the job, the rate, the
    // answer and its state after. A renderer need not tell anything.
    ghost tells: { Self → ℕ → ℕ → Answer → Self → Type 0 } = { λ _ _ _ _ _. Unit {0} };

    /// Plays the job for one tick at the rate.
    // Two numbers and no struct of them: each renderer and each clause would only take it apart again.
    fn run(&mut self, job: u32, rate: u32) -> Answer
        ensures meaning { meaning self.new ≡ heard (meaning self.old) job rate result }
        ensures told { tells self.old job rate result self.new };
}

/// Asks a renderer of any kind.
pub fn run_job<R: Renderer>(renderer: &mut R, job: u32, rate: u32) -> Answer
    ensures meaning { R.Renderer.meaning renderer.new ≡ heard (R.Renderer.meaning renderer.old) job rate result }
    ensures told { R.Renderer.tells renderer.old job rate result renderer.new }
{
    renderer.run(job, rate)
}
