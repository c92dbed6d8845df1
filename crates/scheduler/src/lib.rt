//! The day: title jobs played earliest deadline first, slowed as far as their deadlines allow.
#![tactic(auto)]

mod chosen;
pub mod closed_day;
pub mod day;
mod handed;
pub mod job;
mod order;
mod payload;
mod recording;
mod stage;
