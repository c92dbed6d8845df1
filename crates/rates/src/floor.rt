//! A policy over another: it never runs below a fixed level.

ghost use Rattle.std.specs.Prelude.{◌≡◌, ℕ, Option};
ghost use Rattle.rates.specs.Policy.{floored, least, numbered, raised_to};
ghost use Rattle.rates.specs.Table.{rates_of};

use crate::least::Least;
use crate::level::Level;
use crate::policy::{Policy, choose_level};
use crate::table::RateTable;
use crate::work::Work;

/// Answers the larger of a fixed level and what the inner policy answers, and none where that answers none. A fixed
/// level that the table does not reach counts as the table's last, and level 0 never raises the answer.
#[derive(Drop)]
pub struct Floor<P> {
    level: Level,
    inner: P,
}

impl<P> Floor<P> {
    /// A floor at a level under the answers of an inner policy.
    pub fn new(level: Level, inner: P) -> Floor<P>
        ensures level { result.level ≡ level }
        ensures inner { result.inner ≡ inner }
    {
        Floor { level, inner }
    }
}

/// A level of the table, raised to the fixed one as far as the table goes.
fn raised(fixed: Level, table: &RateTable, answer: Level) -> Level
    ensures { result.0 ≡ raised_to fixed.0 (rates_of table.now) answer.0 }
{
    Level(fixed.0.min(table.top().0).max(answer.0))
}

impl<P: Policy> Policy for Floor<P> {
    ghost tells = { λ before rates remaining ticks answer after. (before.level ≡ after.level) × ((inner : Option ℕ) × (P.Policy.tells before.inner rates remaining ticks inner after.inner) × (answer ≡ floored before.level.0 rates inner)) };

    fn choose(&mut self, table: &RateTable, work: Work) -> Option<Level> {
        let answer = self.inner.choose(table, work)?;
        Some(raised(self.level, table, answer))
    }
}

/// What a floor over a floor over the least level answers.
pub fn twice_floored_least(
    outer: Level,
    inner: Level,
    table: &RateTable,
    work: Work,
) -> Option<Level>
    ensures { numbered result ≡ floored outer.0 (rates_of table.now) (floored inner.0 (rates_of table.now) (least (rates_of table.now) work.remaining work.ticks)) }
{
    let mut policy = Floor::new(outer, Floor::new(inner, Least));
    choose_level(&mut policy, table, work)
}
