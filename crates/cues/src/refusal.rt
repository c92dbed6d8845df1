//! Why a cue, or one more cue, is not taken. Each cause but the want of memory has a number and returns the value that it is about.
ghost use Rattle.std.specs.Prelude.{◌≡◌};
ghost use Rattle.cues.specs.Refusals.{number_of, value_of, list_number, list_value};
ghost use Rattle.cues.specs.declared.refusal.ListRefusal.TheVariants.{NoMemory};

use crate::cue::Cue;
use std::alloc::AllocFailed;

#[derive(Clone, Copy, PartialEq, Eq, Debug)]
pub enum CueRefusal {
    /// The budget is outside 1 to 65,535.
    Budget { budget: u32 },
    /// The deadline is not after the release, or over 134,217,727.
    Deadline { deadline: u32 },
}

// Methods and no trait of numbered causes: each type lists its own cases, and no caller takes any of them.
impl CueRefusal {
    pub fn number(&self) -> u32
        ensures { result ≡ number_of self.now }
    {
        match self {
            CueRefusal::Budget { .. } => 3,
            CueRefusal::Deadline { .. } => 4,
        }
    }

    pub fn value(&self) -> u32
        ensures { result ≡ value_of self.now }
    {
        match self {
            CueRefusal::Budget { budget } => *budget,
            CueRefusal::Deadline { deadline } => *deadline,
        }
    }
}

#[derive(Clone, Copy, PartialEq, Eq, Debug)]
pub enum ListRefusal {
    /// The list holds as many cues as it may.
    Full { most: u32 },
    NoMemory,
}

impl From<AllocFailed<Cue>> for ListRefusal {
    ghost from_gives = { λ _ r. r ≡ NoMemory };

    fn from(_failed: AllocFailed<Cue>) -> ListRefusal {
        Self::NoMemory
    }
}

impl ListRefusal {
    pub fn number(&self) -> Option<u32>
        ensures { result ≡ list_number self.now }
    {
        match self {
            ListRefusal::Full { .. } => Some(11),
            ListRefusal::NoMemory => None,
        }
    }

    pub fn value(&self) -> Option<u32>
        ensures { result ≡ list_value self.now }
    {
        match self {
            ListRefusal::Full { most } => Some(*most),
            ListRefusal::NoMemory => None,
        }
    }
}
