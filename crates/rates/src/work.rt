//! Work to be done at some level of a rate table.

ghost use Rattle.std.specs.Prelude.{◌≡◌, ◌*◌, nat_le};

/// The units that remain and the ticks that are left for them.
#[derive(Clone, Copy, PartialEq, Eq, Debug)]
pub struct Work {
    /// The units that remain.
    pub remaining: u32,
    /// The ticks that are left for them.
    pub ticks: u32,
}

impl Work {
    /// Whether the remaining units are done within the ticks at this rate.
    pub(crate) fn is_done_at(self, rate: u32) -> bool
        ensures { result ≡ nat_le self.remaining (rate * self.ticks) }
    {
        u64::from(self.remaining) <= u64::from(rate) * u64::from(self.ticks)
    }
}
