//! Why a list of rates makes no table.

ghost use Rattle.std.specs.Prelude.{◌≡◌};
ghost use Rattle.rates.specs.Refusal.{number_of, value_of};

/// What is first wrong with a list of rates.
#[derive(Clone, Copy, PartialEq, Eq, Debug)]
pub enum TableRefusal {
    /// No level, or more than 16: holds the count.
    WrongLevelCount(usize),
    /// A rate that is 0, over 4,095 or not above the one before: holds the first such place, from 0.
    WrongRateAt(usize),
}

// Methods and no trait of numbered causes: each type lists its own cases, and no caller takes any of them.
impl TableRefusal {
    /// The number that the box shows for this cause.
    pub fn number(&self) -> u32
        ensures { result ≡ number_of self.now }
    {
        match self {
            TableRefusal::WrongLevelCount(_) => 1,
            TableRefusal::WrongRateAt(_) => 2,
        }
    }

    /// The value that the box shows beside the number.
    pub fn value(&self) -> usize
        ensures { result ≡ value_of self.now }
    {
        match self {
            TableRefusal::WrongLevelCount(count) => *count,
            TableRefusal::WrongRateAt(place) => *place,
        }
    }
}
