//! What a tick tells: that the day is idle, or which job ran, any switch to it, what was asked of the renderer and what
//! it answered, and any ending.
use rates::Level;
use renderers::answer::Answer;

/// One tick of a day.
// An enum of its own and no option: what a tick answers names both cases.
#[derive(Clone, Copy, PartialEq, Eq, Debug)]
pub enum Ticked {
    /// No job is pending.
    Idle,
    Ran(Ran),
}

/// A job that ran for one tick.
#[derive(Clone, Copy, PartialEq, Eq, Debug)]
pub struct Ran {
    pub job: u32,
    /// Where the job did not run in the tick before.
    pub switch: Option<Switch>,
    /// The rate that the renderer was asked to run it at.
    pub rate: u32,
    /// What the renderer answered.
    pub answer: Answer,
    pub ending: Option<Ending>,
}

/// A switch to a job.
#[derive(Clone, Copy, PartialEq, Eq, Debug)]
pub struct Switch {
    /// The job that was set aside for it.
    pub aside: Option<u32>,
    pub turn: Turn,
    pub level: Level,
    /// The clock at which the job has to be over.
    pub bound: u32,
}

/// Whether a job runs for the first time.
#[derive(Clone, Copy, PartialEq, Eq, Debug)]
pub enum Turn {
    Start,
    Resume,
}

/// How a job came to be over.
#[derive(Clone, Copy, PartialEq, Eq, Debug)]
pub enum Ending {
    Finished,
    /// It still ran when nothing remained of its budget.
    Cut,
    /// The renderer failed, with this code.
    Failed(u16),
}
