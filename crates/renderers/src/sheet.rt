//! A renderer that plays the cues of a list: job n is the n-th cue by release and then by place, and is finished once the
//! summed rates at which it was played reach the cue's actual units. It never fails.

ghost use Rattle.std.specs.Prelude.{◌≡◌, ◌<◌, length, IfOk};
ghost use Rattle.cues.specs.CueLists.{cues_of};
ghost use Rattle.renderers.specs.Order.{actual_at, Numbered};
ghost use Rattle.renderers.specs.Requests.{fresh};
ghost use Rattle.renderers.specs.Sheet.{fresh_play, Played, FinishedWhenReached};

use crate::answer::Answer;
use crate::noted::{Answers, Noted};
use crate::order::by_release;
use crate::play::Play;
use cues::cue::Cue;
use cues::list::CueList;
use std::alloc::{AllocError, Global};

/// How far each job has been played, job 1 first.
#[derive(Drop)]
pub struct Plays {
    plays: Vec<Play>,
}

/// The plays of a list, and the requests so far.
pub type SheetRenderer = Noted<Plays>;

impl SheetRenderer {
    /// A renderer of these cues, before the first request.
    pub fn new(heap: Global, cues: &CueList) -> Result<SheetRenderer, AllocError>
        ensures { IfOk result (λ s. Numbered (cues_of cues.now) s.answers.plays.items × (s.noted ≡ fresh) × FinishedWhenReached s.answers.plays.items) }
    {
        let plays = fresh_plays(heap, cues.as_slice())?;
        Ok(Noted::fresh(Plays { plays }))
    }
}

impl Answers for Plays {
    ghost tells = { λ before job rate answer after. Played before.plays.items job rate answer after.plays.items };

    /// Plays a job for one tick; a job without a cue changes nothing.
    fn answer(&mut self, job: u32, rate: u32) -> Answer {
        let Some(place) = job.checked_sub(1) else {
            return Answer::Running;
        };
        let Some(play) = self.plays.get_mut(place as usize) else {
            return Answer::Running;
        };
        *play = play.grown(rate);
        play.answer()
    }
}

/// The play of each job, job 1 first, before any was played.
fn fresh_plays(heap: Global, cues: &[Cue]) -> Result<Vec<Play>, AllocError>
    ensures { IfOk result (λ plays. Numbered cues.now plays.items × FinishedWhenReached plays.items) }
{
    let order = by_release(heap, cues)?;
    order
        .iter()
        .map(|waiting| fresh_play(cues, waiting.place))
        .collect(heap)
}

/// The play of the cue at a place, before it was played.
fn fresh_play(cues: &[Cue], place: usize) -> Play
    requires { place < length cues.now }
    ensures { result ≡ fresh_play (actual_at cues.now place) }
{
    Play::fresh(cues[place].actual())
}
