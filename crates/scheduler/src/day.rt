//! An open day. The struct stands alone in this file, so that the definitions that speak of it can be cited by its
//! methods: opening and closing, releasing a job, and ticking.

mod choosing;
mod opening;
mod releasing;
mod settling;
mod ticking;

ghost use Rattle.std.specs.Prelude.{◌≡◌};
ghost use Rattle.scheduler.specs.Day.{Reached};
ghost use Rattle.scheduler.specs.Held.{held};
ghost use Rattle.scheduler.specs.Places.{first_place, runner_place};

use crate::handed::Handed;
use crate::job::Job;
use arrayvec::ArrayVec;
use rates::RateTable;

/// The last clock of a day.
const LAST_CLOCK: u32 = 134_217_727;

/// The most jobs that may be pending.
const MOST_PENDING: usize = 64;

/// The free words that a release or a tick wants: no call writes more, and one is left for closing the day.
const CALL_WORDS: usize = 10;

/// A day that is open. It came about by some list of accepted calls, and no other day exists.
///
/// The places of the first pending job and of the job that ran in the tick before are kept, so that a tick in which
/// nothing was released and nothing ended since the last one looks at one job only.
#[derive(Drop)]
pub struct Day {
    table: RateTable,
    clock: u32,
    /// How many jobs were accepted.
    accepted: u32,
    /// The summed budgets of the jobs that were accepted.
    budgets: u32,
    /// The pending jobs in the order of their numbers.
    pending: ArrayVec<Job, MOST_PENDING>,
    /// The place of the first pending job, if one is pending.
    first: Option<usize>,
    /// The place of the job that ran in the tick before, if it is pending.
    running: Option<usize>,
    handed: Handed,
    ghost reached: { ∥ Reached (held table clock accepted budgets pending handed) ∥₁ },
    ghost first_holds: { first_place pending.items ≡ first },
    ghost running_holds: { runner_place pending.items ≡ running },
}
