//! The policy that always runs at full speed.

ghost use Rattle.std.specs.Prelude.{◌≡◌};
ghost use Rattle.rates.specs.Policy.{last};

use crate::level::Level;
use crate::policy::Policy;
use crate::table::RateTable;
use crate::work::Work;

/// Answers the last level of the table.
#[derive(Clone, Copy)]
pub struct Top;

impl Policy for Top {
    ghost tells = { λ _ rates remaining ticks answer _. answer ≡ last rates remaining ticks };

    fn choose(&mut self, table: &RateTable, work: Work) -> Option<Level> {
        work.is_done_at(table.top_rate()).then_some(table.top())
    }
}
