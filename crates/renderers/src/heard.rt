//! What a renderer has been asked for so far. Every renderer means one of these; the supplied ones keep it as a field.

ghost use Rattle.std.specs.Prelude.{◌≡◌};
ghost use Rattle.renderers.specs.Requests.{fresh, heard, latest};

use crate::answer::Answer;

/// How many requests there were, held at 4,294,967,295, and the latest of them: the job, its rate and the answer.
#[derive(Clone, Copy, PartialEq, Eq, Debug)]
pub struct Heard {
    pub requests: u32,
    pub job: u32,
    pub rate: u32,
    pub answer: Answer,
}

impl Heard {
    /// Before the first request: no job, no rate, and running.
    pub fn nothing() -> Heard
        ensures { result ≡ fresh }
    {
        Heard {
            requests: 0,
            job: 0,
            rate: 0,
            answer: Answer::Running,
        }
    }

    /// The latest request and its answer.
    pub fn latest(&self) -> (u32, u32, Answer)
        ensures { result ≡ latest self.now }
    {
        (self.job, self.rate, self.answer)
    }

    /// One more request, which becomes the latest.
    pub fn note(&mut self, job: u32, rate: u32, answer: Answer)
        ensures { self.new ≡ heard self.old job rate answer }
    {
        let requests = self.requests.saturating_add(1);
        *self = Heard {
            requests,
            job,
            rate,
            answer,
        };
    }
}
