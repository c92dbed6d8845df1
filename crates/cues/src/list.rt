//! The cues of a sheet in their order. Every list that exists holds at most 1,024.
ghost use Rattle.std.specs.Prelude.{◌≤◌, vec_len};

pub mod methods;

use crate::cue::Cue;

#[derive(Drop)]
pub struct CueList {
    cues: Vec<Cue>,
    ghost few: { vec_len cues ≤ 1024 },
}
