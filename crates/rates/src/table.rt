//! The rate table. It stands alone in this file, so that the definitions that speak of it can be cited by its methods.

mod methods;

ghost use Rattle.std.specs.Prelude.{◌≡◌, ◌≤◌, length, take};
ghost use Rattle.rates.specs.Lawful.{Positive, Limited, Rising};

/// The most levels that a table may have.
const MOST_LEVELS: usize = 16;

/// 1 to 16 rates in units per tick, each 1 to 4,095 and above the one before. No other table exists.
// A fixed array with its count: a table is Copy, which a list of the library that keeps its own length is not.
#[derive(Clone, Copy)]
pub struct RateTable {
    rates: [u32; MOST_LEVELS],
    count: usize,
    ghost places: { length rates ≡ 16 },
    ghost some: { 1 ≤ count },
    ghost few: { count ≤ 16 },
    ghost positive: { Positive (take count rates) },
    ghost limited: { Limited (take count rates) },
    ghost rising: { Rising (take count rates) },
}
