//! The calls of a day as values, what they are answered with, and why they are refused.
#![tactic(auto)]

pub mod call;
pub mod refusal;
pub mod ticked;
