//! The calls of a day as values, and what they are answered with.
use crate::ticked::Ticked;

/// A call of an open day.
#[derive(Clone, Copy, PartialEq, Eq, Debug)]
pub enum Call {
    Release { deadline: u32, budget: u32 },
    Tick,
}

/// What a call that is accepted is answered with. One that is refused is answered with its refusal.
#[derive(Clone, Copy, PartialEq, Eq, Debug)]
pub enum Reply {
    /// The job was accepted under this number.
    Released(u32),
    Ticked(Ticked),
}
