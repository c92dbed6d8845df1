//! Making and reading a rate table.

ghost use Rattle.std.specs.Prelude.{◌≡◌, ◌≤◌, length, take, IfOk};
ghost use Rattle.std.specs.Result.{result_err};
ghost use Rattle.rates.specs.Judged.{first_wrong, judged, Verdict};
ghost use Rattle.rates.specs.Lawful.{Lawful};
ghost use Rattle.rates.specs.Table.{rates_of, rate_at, top_rate};

use super::{MOST_LEVELS, RateTable};
use crate::level::Level;
use crate::refusal::TableRefusal;

/// The highest rate, in units per tick.
const HIGHEST_RATE: u32 = 4095;

/// The first place, from 0, whose rate is 0, too high or not above the one before.
fn first_wrong_rate(rates: &[u32]) -> Option<usize>
    ensures { result ≡ first_wrong 0 0 rates.now }
{
    let mut before = 0;
    for (place, rate) in rates.iter().enumerate() {
        if *rate <= before || *rate > HIGHEST_RATE {
            return Some(place);
        }
        before = *rate;
    }
    None
}

/// Refuses rates of which something is wrong: first their count, then a rate.
fn check(rates: &[u32]) -> Result<(), TableRefusal>
    ensures { result_err result ≡ judged rates.now }
{
    let count = rates.len();
    if count == 0 || count > MOST_LEVELS {
        return Err(TableRefusal::WrongLevelCount(count));
    }
    if let Some(place) = first_wrong_rate(rates) {
        return Err(TableRefusal::WrongRateAt(place));
    }
    Ok(())
}

/// The rates at the front of a table's places, with 0 in those that are left.
fn padded(rates: &[u32]) -> [u32; MOST_LEVELS]
    requires { length rates.now ≤ 16 }
    ensures { take (length rates.now) result ≡ rates.now }
{
    let mut places = [0; MOST_LEVELS];
    places[0..rates.len()].copy_from_slice(rates);
    places
}

impl RateTable {
    /// The table with these rates, or what is first wrong with them.
    pub fn new(rates: &[u32]) -> Result<RateTable, TableRefusal>
        ensures refusal { result_err result ≡ judged rates.now }
        ensures verdict { Verdict rates.now (result_err result) }
        ensures rates { IfOk result (λ table. rates_of table ≡ rates.now) }
    {
        check(rates)?;
        Ok(RateTable {
            rates: padded(rates),
            count: rates.len(),
        })
    }

    /// How many levels the table has.
    pub fn levels(&self) -> usize
        ensures { result ≡ length (rates_of self.now) }
    {
        self.as_slice().len()
    }

    /// The rates in order, that of level 1 first.
    pub fn as_slice(&self) -> &[u32]
        ensures rates { result.now ≡ rates_of self.now }
        ensures lawful { Lawful (rates_of self.now) }
    {
        &self.rates[0..self.count]
    }

    /// The rate of a level, if the table has that level.
    pub fn rate(&self, level: Level) -> Option<u32>
        ensures { result ≡ rate_at (rates_of self.now) level.0 }
    {
        let place = level.0.checked_sub(1)?;
        self.as_slice().get(place as usize).copied()
    }

    /// The last level.
    pub fn top(&self) -> Level
        ensures { result.0 ≡ length (rates_of self.now) }
    {
        Level(self.count as u32)
    }

    /// The rate of the last level.
    pub fn top_rate(&self) -> u32
        ensures { result ≡ top_rate (rates_of self.now) }
    {
        let rates = self.as_slice();
        rates[rates.len() - 1]
    }
}
