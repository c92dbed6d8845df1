//! Why a call of the day is refused. Each cause has a number and a value.
ghost use Rattle.std.specs.Prelude.{◌≡◌};
ghost use Rattle.calls.specs.Refusals.{number_of, value_of};
ghost use Rattle.calls.specs.declared.refusal.Refusal.TheVariants as refusal;

use cues::refusal::CueRefusal;
use recorder::NoRoom;

/// Why a call is refused.
#[derive(Clone, Copy, PartialEq, Eq, Debug)]
pub enum Refusal {
    /// No cue has this deadline and budget at this clock.
    Job(CueRefusal),
    /// As many jobs are pending as may be.
    Pending { most: u32 },
    /// The accepted budgets would pass 134,217,727: holds their sum.
    Budgets { sum: u32 },
    /// The clock stands at its last value.
    Clock { clock: u32 },
    /// Too few words are free: holds how many are.
    Room { free: usize },
}

// Methods and no trait of numbered causes: each type lists its own cases, and no caller takes any of them.
impl Refusal {
    /// The number of the cause.
    pub fn number(&self) -> u32
        ensures { result ≡ number_of self.now }
    {
        match self {
            Refusal::Job(refusal) => refusal.number(),
            Refusal::Pending { .. } => 5,
            Refusal::Budgets { .. } => 6,
            Refusal::Clock { .. } => 7,
            Refusal::Room { .. } => 8,
        }
    }

    /// The value that comes back with the number.
    pub fn value(&self) -> usize
        ensures { result ≡ value_of self.now }
    {
        match self {
            Refusal::Job(refusal) => refusal.value() as usize,
            Refusal::Pending { most } => *most as usize,
            Refusal::Budgets { sum } => *sum as usize,
            Refusal::Clock { clock } => *clock as usize,
            Refusal::Room { free } => *free,
        }
    }
}

impl From<CueRefusal> for Refusal {
    ghost from_gives = { λ cause r. r ≡ refusal.Job cause };

    fn from(cause: CueRefusal) -> Refusal {
        Refusal::Job(cause)
    }
}

impl From<NoRoom> for Refusal {
    ghost from_gives = { λ no_room r. r ≡ refusal.Room no_room.free };

    fn from(no_room: NoRoom) -> Refusal {
        Refusal::Room { free: no_room.free }
    }
}
