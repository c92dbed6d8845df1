//! A whole evening in lent words: a list of calls is played on a fresh day, and the day is closed.

ghost use Rattle.std.specs.Prelude.{◌≡◌, Ok, Err};
ghost use Rattle.rates.specs.Table.{rates_of};
ghost use Rattle.recorder.specs.Page.{blank};
ghost use Rattle.scheduler.specs.Day.{opened};
ghost use Rattle.playing.specs.Exchanges.{AskedThrough, NotPlayed, RunThrough, exchanges};
ghost use Rattle.scheduler.specs.Outcomes.{opening_refusal};
ghost use Rattle.playing.specs.Traces.{RecordedEvening};

use crate::play::{PlayError, play};
use calls::call::{Call, Reply};
use calls::refusal::Refusal;
use rates::{Policy, RateTable};
use recorder::LentWords;
use renderers::renderer::Renderer;
use std::alloc::Global;

/// What is left of a day that was played and closed, beside the words that it was recorded in.
#[derive(Drop)]
pub struct Evening {
    /// The answers to the calls, in their order.
    pub replies: Vec<Result<Reply, Refusal>>,
    /// The clock at which the day was closed.
    pub clock: u32,
    /// How many of the lent words are its trace.
    pub written: usize,
}

/// Plays a list of calls on a fresh day, records it in lent words from their beginning on, and closes it.
///
/// It promises the law of the whole list, as `play` does, and that the words begin with the trace of the day and are
/// otherwise as they were.
pub fn play_evening<P: Policy, R: Renderer>(
    heap: Global,
    table: RateTable,
    calls: &[Call],
    policy: &mut P,
    renderer: &mut R,
    words: &mut [u32],
) -> Result<Evening, PlayError>
    ensures day { elim result [ Ok done ↦ RecordedEvening (rates_of table) calls.now done.replies.items words.old words.new (R.Renderer.meaning renderer.old) (R.Renderer.meaning renderer.new) done.clock done.written | Err e ↦ NotPlayed (opening_refusal (blank words.old) (rates_of table)) e (words.new ≡ words.old) ] }
    ensures policy { elim result [ Ok done ↦ AskedThrough P.Policy.tells (opened (rates_of table)) (exchanges calls.now done.replies.items) policy.old policy.new | Err e ↦ policy.new ≡ policy.old ] }
    ensures renderer { elim result [ Ok done ↦ RunThrough R.Renderer.tells (exchanges calls.now done.replies.items) renderer.old renderer.new | Err e ↦ renderer.new ≡ renderer.old ] }
{
    let mut trace = LentWords::over(words);
    let played = play(heap, table, calls, policy, renderer, &mut trace)?;
    let clock = played.day.close(&mut trace).clock();
    Ok(Evening {
        replies: played.replies,
        clock,
        written: trace.into_written(),
    })
}
