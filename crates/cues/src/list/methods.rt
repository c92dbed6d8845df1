//! Making a list of cues, adding to it, and reading it.
ghost use Rattle.std.specs.Prelude.{◌≡◌, [], length};
ghost use Rattle.cues.specs.CueLists.{cues_of, Pushed, Found};

use super::CueList;
use crate::cue::Cue;
use crate::refusal::ListRefusal;
use std::alloc::Global;

impl CueList {
    pub const MOST: u32 = 1_024;

    /// A list of no cue.
    pub fn new(heap: Global) -> CueList
        ensures { cues_of result ≡ [] }
    {
        CueList {
            cues: Vec::new(heap),
        }
    }

    /// Adds a cue at the end; a refusal leaves the list as it was.
    pub fn push(&mut self, cue: Cue) -> Result<(), ListRefusal>
        ensures { Pushed (cues_of self.old) cue result (cues_of self.new) }
    {
        if self.len() == CueList::MOST as usize {
            return Err(ListRefusal::Full {
                most: CueList::MOST,
            });
        }
        Ok(self.cues.push(cue)?)
    }

    pub fn len(&self) -> usize
        ensures { result ≡ length (cues_of self.now) }
    {
        self.cues.len()
    }

    /// The cue at a place, from 0.
    pub fn get(&self, place: usize) -> Option<Cue>
        ensures { Found (cues_of self.now) place result }
    {
        self.cues.get(place).copied()
    }

    pub fn as_slice(&self) -> &[Cue]
        ensures { result.now ≡ cues_of self.now }
    {
        self.cues.as_slice()
    }
}
