//! A day that is over. Its type has neither releases nor ticks.

ghost use Rattle.std.specs.Prelude.{◌≡◌};

/// A closed day: all that is left of it is the clock at which it was closed.
#[derive(Drop)]
pub struct ClosedDay {
    clock: u32,
}

impl ClosedDay {
    /// A day that was closed at this clock.
    pub(crate) fn closed_at(clock: u32) -> ClosedDay
        ensures { result.clock ≡ clock }
    {
        ClosedDay { clock }
    }

    /// The clock at which the day was closed.
    pub fn clock(&self) -> u32
        ensures { result ≡ self.now.clock }
    {
        self.clock
    }
}
