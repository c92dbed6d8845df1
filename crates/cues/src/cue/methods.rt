//! Making a cue, and reading it.
ghost use Rattle.std.specs.Prelude.{◌≡◌, Some, None, Ok, Err};
ghost use Rattle.std.specs.Result.{result_err};
ghost use Rattle.cues.specs.Cues.{cue_refusal, Holds};

use super::Cue;
use crate::refusal::CueRefusal;

impl Cue {
    pub const LARGEST_BUDGET: u32 = 65_535;

    pub const LATEST_DEADLINE: u32 = 134_217_727;

    /// Tells whether a cue may have these numbers: its budget or else its deadline is refused where it is out of bounds.
    pub fn check(release: u32, deadline: u32, budget: u32) -> Result<(), CueRefusal>
        ensures { result_err result ≡ cue_refusal release deadline budget }
    {
        if budget == 0 || budget > Cue::LARGEST_BUDGET {
            return Err(CueRefusal::Budget { budget });
        }
        if deadline <= release || deadline > Cue::LATEST_DEADLINE {
            return Err(CueRefusal::Deadline { deadline });
        }
        Ok(())
    }

    /// A cue of these four numbers, unless its budget or else its deadline is out of bounds.
    pub fn new(release: u32, deadline: u32, budget: u32, actual: u32) -> Result<Cue, CueRefusal>
        ensures { elim result [ Ok c ↦ (cue_refusal release deadline budget ≡ None) × Holds c release deadline budget actual | Err e ↦ cue_refusal release deadline budget ≡ Some e ] }
    {
        Cue::check(release, deadline, budget)?;
        Ok(Cue {
            release,
            deadline,
            budget,
            actual,
        })
    }

    /// The tick from which the cue may be played.
    pub fn release(&self) -> u32
        ensures { result ≡ self.now.release }
    {
        self.release
    }

    /// The tick by which it must be over.
    pub fn deadline(&self) -> u32
        ensures { result ≡ self.now.deadline }
    {
        self.deadline
    }

    /// The ticks that it may take at the top rate.
    pub fn budget(&self) -> u32
        ensures { result ≡ self.now.budget }
    {
        self.budget
    }

    /// The units that it takes in fact.
    pub fn actual(&self) -> u32
        ensures { result ≡ self.now.actual }
    {
        self.actual
    }
}
