//! How far one cue has been played.

ghost use Rattle.std.specs.Prelude.{◌≡◌};
ghost use Rattle.renderers.specs.Sheet.{fresh_play, grown, says};

use crate::answer::Answer;

/// The actual units of a cue, and the summed rates of the ticks that it was played, held at 268,435,455.
#[derive(Clone, Copy)]
pub struct Play {
    actual: u32,
    summed: u32,
}

impl Play {
    const MOST_UNITS: u32 = 268_435_455;

    /// A cue of which nothing was played.
    pub(crate) fn fresh(actual: u32) -> Play
        ensures { result ≡ fresh_play actual }
    {
        Play { actual, summed: 0 }
    }

    /// One tick more at the rate.
    pub(crate) fn grown(self, rate: u32) -> Play
        ensures { result ≡ grown self rate }
    {
        let summed = self.summed.saturating_add(rate).min(Play::MOST_UNITS);
        Play {
            actual: self.actual,
            summed,
        }
    }

    /// Finished once the summed rates reach the actual units; a cue of none never is.
    pub(crate) fn answer(self) -> Answer
        ensures { result ≡ says self }
    {
        if self.actual > 0 && self.summed >= self.actual {
            Answer::Finished
        } else {
            Answer::Running
        }
    }
}
