//! Whole lists of calls, played on a fresh day. The law over whole runs stands here, on the contract of the call that plays
//! a list.
#![tactic(auto)]

pub mod evening;
pub mod play;
pub mod worked;
