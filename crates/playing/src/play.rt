//! A whole list of calls played on a fresh day. The law over whole runs is the promise of this call.

ghost use Rattle.std.specs.Prelude.{◌≡◌, Ok, Err};
ghost use Rattle.rates.specs.Table.{rates_of};
ghost use Rattle.playing.specs.declared.play.PlayError.TheVariants.{Refused, NoMemory};
ghost use Rattle.scheduler.specs.Day.{opened};
ghost use Rattle.playing.specs.Exchanges.{Answered, AskedIn, AskedThrough, NotPlayed, Plays, RunIn, RunThrough, exchanges};
ghost use Rattle.scheduler.specs.Model.{model};
ghost use Rattle.scheduler.specs.Outcomes.{opening_refusal};

use calls::call::{Call, Reply};
use calls::refusal::Refusal;
use rates::{Policy, RateTable};
use recorder::Trace;
use renderers::renderer::Renderer;
use scheduler::day::Day;
use std::alloc::{AllocError, Global};

/// A day after a list of calls, and their answers.
#[derive(Drop)]
pub struct Played {
    pub day: Day,
    pub replies: Vec<Result<Reply, Refusal>>,
}

/// Why a list of calls was not played to its end.
#[derive(Clone, Copy, PartialEq, Eq, Debug)]
pub enum PlayError {
    /// The day was not opened.
    Refused(Refusal),
    NoMemory,
}

impl From<AllocError> for PlayError {
    ghost from_gives = { λ _ e. e ≡ NoMemory };

    fn from(_error: AllocError) -> PlayError {
        PlayError::NoMemory
    }
}

impl From<Refusal> for PlayError {
    ghost from_gives = { λ refusal e. e ≡ Refused refusal };

    fn from(refusal: Refusal) -> PlayError {
        PlayError::Refused(refusal)
    }
}

/// Makes one call.
fn answer<P: Policy, R: Renderer, T: Trace>(
    day: &mut Day,
    call: Call,
    policy: &mut P,
    renderer: &mut R,
    trace: &mut T,
) -> Result<Reply, Refusal>
    ensures day { Answered (record { day = model day.old; page = T.Trace.page trace.old }) (record { day = model day.new; page = T.Trace.page trace.new }) (R.Renderer.meaning renderer.old) (R.Renderer.meaning renderer.new) call result }
    ensures policy { AskedIn P.Policy.tells (model day.old) result policy.old policy.new }
    ensures renderer { RunIn R.Renderer.tells result renderer.old renderer.new }
{
    match call {
        Call::Release { deadline, budget } => day
            .release(deadline, budget, trace)
            .map(Reply::Released),
        Call::Tick => day.tick(policy, renderer, trace).map(Reply::Ticked),
    }
}

/// Plays a list of calls, one after the other, on a fresh day, and gives that day and every call's answer.
///
/// Of the whole list, over any rate table, policy and renderer, recorded or not, it promises the law: the day is never
/// behind the full-speed reference run of the jobs that were accepted.
// Policy, renderer and trace are no struct: each has a clause of its own, and a tick borrows all three for one call.
pub fn play<P: Policy, R: Renderer, T: Trace>(
    heap: Global,
    table: RateTable,
    calls: &[Call],
    policy: &mut P,
    renderer: &mut R,
    trace: &mut T,
) -> Result<Played, PlayError>
    ensures day { elim result [ Ok done ↦ Plays (rates_of table) calls.now done.replies.items (T.Trace.page trace.old) (T.Trace.page trace.new) (R.Renderer.meaning renderer.old) (R.Renderer.meaning renderer.new) (model done.day) | Err e ↦ NotPlayed (opening_refusal (T.Trace.page trace.old) (rates_of table)) e (trace.new ≡ trace.old) ] }
    ensures policy { elim result [ Ok done ↦ AskedThrough P.Policy.tells (opened (rates_of table)) (exchanges calls.now done.replies.items) policy.old policy.new | Err e ↦ policy.new ≡ policy.old ] }
    ensures renderer { elim result [ Ok done ↦ RunThrough R.Renderer.tells (exchanges calls.now done.replies.items) renderer.old renderer.new | Err e ↦ renderer.new ≡ renderer.old ] }
{
    let mut replies = Vec::with_capacity(heap, calls.len())?;
    let mut day = Day::open(table, trace)?;
    for call in calls {
        let reply = answer(&mut day, *call, policy, renderer, trace);
        replies.push(reply).unwrap();
    }
    Ok(Played { day, replies })
}
