//! Renderers that keep what they have heard beside what answers.

ghost use Rattle.std.specs.Prelude.{◌≡◌, ℕ};
ghost use Rattle.renderers.specs.declared.answer.Answer.{Answer};
ghost use Rattle.renderers.specs.Requests.{fresh, latest};

use crate::answer::Answer;
use crate::heard::Heard;
use crate::renderer::Renderer;

/// Answers requests, and leaves it to another to keep what was asked.
pub trait Answers {
    // What it tells of an answer: a relation of its state before, the job, the rate, the answer and its state after.
    ghost tells: { Self → ℕ → ℕ → Answer → Self → Type 0 };

    /// Plays the job for one tick at the rate.
    fn answer(&mut self, job: u32, rate: u32) -> Answer
        ensures { tells self.old job rate result self.new };
}

/// What answers, and the requests so far.
#[derive(Clone, Copy, Drop)]
pub struct Noted<A> {
    answers: A,
    noted: Heard,
}

impl<A> Noted<A> {
    /// Before the first request.
    pub(crate) fn fresh(answers: A) -> Noted<A>
        ensures answers { result.answers ≡ answers }
        ensures noted { result.noted ≡ fresh }
    {
        Noted {
            answers,
            noted: Heard::nothing(),
        }
    }

    /// How many requests it has had, held at 4,294,967,295.
    pub fn requests(&self) -> u32
        ensures { result ≡ self.now.noted.requests }
    {
        self.noted.requests
    }

    /// The latest request and its answer: job 0 at rate 0, running, before the first.
    pub fn latest(&self) -> (u32, u32, Answer)
        ensures { result ≡ latest self.now.noted }
    {
        self.noted.latest()
    }
}

impl<A: Answers> Renderer for Noted<A> {
    ghost meaning = { λ s. s.noted };

    ghost tells = { λ before job rate answer after. A.Answers.tells before.answers job rate answer after.answers };

    fn run(&mut self, job: u32, rate: u32) -> Answer {
        let answer = self.answers.answer(job, rate);
        self.noted.note(job, rate, answer);
        answer
    }
}
