//! A sheet that was read: its table and its cues are sound, but nothing is known yet of what they demand together.
mod methods;

use cues::list::CueList;
use rates::RateTable;

/// A sheet that was read.
#[derive(Drop)]
pub struct ReadSheet {
    table: RateTable,
    cues: CueList,
}
