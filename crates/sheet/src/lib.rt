//! A cue sheet: its words are read, with every fault named by layer, number and place, and a sheet that was read is
//! admitted where no interval demands more ticks than it has.
#![tactic(auto)]

pub mod admitted;
pub mod read;
mod reading;
