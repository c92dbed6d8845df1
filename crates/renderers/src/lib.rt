//! Renderers: whoever plays a job, one tick at a request. A [`Renderer`](renderer::Renderer) is known by what it was asked
//! for and what it answered. Two are supplied: [`SheetRenderer`](sheet::SheetRenderer) plays the cues of a list, and
//! [`AnswerTape`](tape::AnswerTape) answers what a tape of words says.
#![tactic(auto)]

pub mod answer;
pub mod heard;
pub mod noted;
mod order;
pub mod play;
pub mod renderer;
pub mod sheet;
pub mod tape;
#[cfg(test)]
mod tests;
