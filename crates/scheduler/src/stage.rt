//! What the stage of a pending job says of it.

ghost use Rattle.std.specs.Prelude.{◌≡◌};
ghost use Rattle.scheduler.specs.Day.{paced, set_aside, turn_of};
ghost use Rattle.runs.specs.SlowRun.{runs};

use crate::job::Stage;
use calls::ticked::Turn;

impl Stage {
    /// Whether the job ran in the tick before.
    pub(crate) fn is_running(self) -> bool
        ensures { result ≡ runs (paced self) }
    {
        matches!(self, Stage::Running { .. })
    }

    /// The stage once a job that ran is set aside, with the clock noted.
    pub(crate) fn set_aside(self, clock: u32) -> Stage
        ensures { result ≡ set_aside clock self }
    {
        match self {
            Stage::Running { bound, .. } => Stage::Aside {
                bound,
                noted: clock,
            },
            Stage::Waiting | Stage::Aside { .. } => self,
        }
    }

    /// Whether the job would start or resume.
    pub(crate) fn turn(self) -> Turn
        ensures { result ≡ turn_of self }
    {
        match self {
            Stage::Waiting => Turn::Start,
            Stage::Running { .. } | Stage::Aside { .. } => Turn::Resume,
        }
    }
}
