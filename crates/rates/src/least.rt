//! The policy that runs as slowly as the work allows.

ghost use Rattle.std.specs.Prelude.{◌≡◌, ◌*◌, nat_le, position};
ghost use Rattle.rates.specs.Policy.{Answers, least, LeastExamples, Lowest, numbered};
ghost use Rattle.rates.specs.Table.{rates_of};

use crate::level::Level;
use crate::policy::Policy;
use crate::table::RateTable;
use crate::work::Work;

/// Answers the lowest sufficient level.
#[derive(Clone, Copy)]
pub struct Least;

/// The first place, from 0, whose rate is enough for the work.
fn first_enough(rates: &[u32], work: Work) -> Option<usize>
    ensures { result ≡ position (λ rate. nat_le work.remaining (rate * work.ticks)) rates.now }
{
    rates.iter().position(|rate| work.is_done_at(*rate))
}

/// The lowest level of the table at which the remaining units are done within the ticks.
pub fn least_level(table: &RateTable, work: Work) -> Option<Level>
    ensures exact { numbered result ≡ least (rates_of table.now) work.remaining work.ticks }
    ensures meaning { Answers (rates_of table.now) work.remaining work.ticks (numbered result) }
    ensures lowest { Lowest (rates_of table.now) work.remaining work.ticks (numbered result) }
{
    let place = first_enough(table.as_slice(), work)?;
    Some(Level(place as u32 + 1))
}

impl Policy for Least {
    ghost tells = { λ _ rates remaining ticks answer _. answer ≡ least rates remaining ticks };

    fn choose(&mut self, table: &RateTable, work: Work) -> Option<Level> {
        least_level(table, work)
    }
}

/// Shows the definition of the least level at work on four examples; there is nothing to run.
pub fn least_examples()
    ensures { LeastExamples least }
{}
