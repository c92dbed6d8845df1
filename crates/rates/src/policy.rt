//! What it is to be a policy. Whoever runs work asks one for a level, given the table and the work that is left, and
//! is told one that is fast enough, or that there is none.

ghost use Rattle.std.specs.Prelude.{◌≡◌, ℕ, List, Option};
ghost use Rattle.rates.specs.Policy.{Answers, Exact, numbered};
ghost use Rattle.rates.specs.Table.{rates_of};

use crate::level::Level;
use crate::table::RateTable;
use crate::work::Work;

/// A way to pick a level. It may keep a state and choose differently next time.
pub trait Policy {
    // What a policy tells of its choice beyond the meaning: a relation of its state before, the table's rates, the
    // remaining units, the ticks, the number that it answers and its state after. A policy need not tell anything.
    ghost tells: { Self → List ℕ → ℕ → ℕ → Option ℕ → Self → Type 0 } = { λ _ _ _ _ _ _. Unit {0} };

    /// A level of the table whose rate times the ticks is at least what remains, and none exactly when the top rate
    /// is too slow for it.
    // The table stays apart from the work: a day has one table, and new work at each switch.
    fn choose(&mut self, table: &RateTable, work: Work) -> Option<Level>
        ensures meaning { Answers (rates_of table.now) work.remaining work.ticks (numbered result) }
        ensures told { tells self.old (rates_of table.now) work.remaining work.ticks (numbered result) self.new };
}

/// Says what a policy's meaning comes to for an answer that keeps to it; nothing runs.
fn answer_is_exact(table: &RateTable, work: Work, answer: Option<Level>)
    requires { Answers (rates_of table.now) work.remaining work.ticks (numbered answer) }
    ensures { Exact (rates_of table.now) work.remaining work.ticks (numbered answer) }
{}

/// Asks a policy of any kind for a level: none exactly when the top rate is too slow.
pub fn choose_level<P: Policy>(policy: &mut P, table: &RateTable, work: Work) -> Option<Level>
    ensures exact { Exact (rates_of table.now) work.remaining work.ticks (numbered result) }
    ensures told { P.Policy.tells policy.old (rates_of table.now) work.remaining work.ticks (numbered result) policy.new }
{
    let answer = policy.choose(table, work);
    answer_is_exact(table, work, answer);
    answer
}
