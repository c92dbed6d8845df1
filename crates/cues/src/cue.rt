//! One cue of a sheet. Every cue that exists keeps the three bounds below, whoever made it.
ghost use Rattle.std.specs.Prelude.{◌<◌, ◌≤◌};

pub mod methods;

#[derive(Clone, Copy)]
pub struct Cue {
    release: u32,
    deadline: u32,
    budget: u32,
    actual: u32,
    ghost rising: { release < deadline },
    ghost in_time: { deadline ≤ 134217727 },
    ghost some_work: { 1 ≤ budget },
    ghost little_work: { budget ≤ 65535 },
}
