//! A job that is pending: accepted, and not over yet.
use rates::Level;

/// How far a pending job has come.
#[derive(Clone, Copy, Default)]
pub enum Stage {
    /// It never started.
    #[default]
    Waiting,
    /// It ran in the tick before, at this level, and has to be over at its bound.
    Running { bound: u32, level: Level },
    /// It was set aside when the clock stood at `noted`.
    Aside { bound: u32, noted: u32 },
}

/// A pending job: its number, deadline and budget, the units that remain of it, and how far it has come.
// Its default fills the places of the day's vector in which no job stands.
#[derive(Clone, Copy, Default)]
pub struct Job {
    pub number: u32,
    pub deadline: u32,
    pub budget: u32,
    pub remaining: u32,
    pub stage: Stage,
}
