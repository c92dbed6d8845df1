//! Opening and closing a day.

ghost use Rattle.std.specs.Prelude.{◌≡◌, Ok, Err};
ghost use Rattle.rates.specs.Table.{rates_of};
ghost use Rattle.recorder.specs.Page.{marked_all};
ghost use Rattle.scheduler.specs.Marks.{closing_marks};
ghost use Rattle.scheduler.specs.Model.{model};
ghost use Rattle.scheduler.specs.Outcomes.{Opens, Refused, opening_refusal};

use super::Day;
use crate::closed_day::ClosedDay;
use crate::handed::Handed;
use crate::payload::Payload;
use crate::recording::{record_closing, record_opening};
use arrayvec::ArrayVec;
use calls::refusal::Refusal;
use rates::RateTable;
use recorder::Trace;

/// The words that opening a day wants beside one for each level: the edition, one for the end, and one to spare.
const OPENING_WORDS: usize = 3;

impl Day {
    /// Opens a fresh day with this table, and records the table. Refused where too few words are free for that.
    pub fn open<T: Trace>(table: RateTable, trace: &mut T) -> Result<Day, Refusal>
        ensures { elim result [ Ok day ↦ Opens (rates_of table) (T.Trace.page trace.old) (T.Trace.page trace.new) (model day) | Err refusal ↦ Refused (opening_refusal (T.Trace.page trace.old) (rates_of table)) refusal (trace.new ≡ trace.old) ] }
    {
        trace.reserve(table.levels() + OPENING_WORDS)?;
        record_opening(&table, trace);
        Ok(Day {
            table,
            clock: 0,
            accepted: 0,
            budgets: 0,
            pending: ArrayVec::new(),
            first: None,
            running: None,
            handed: Handed {
                bound: 0,
                deadline: 0,
            },
        })
    }

    /// The clock.
    pub fn clock(&self) -> u32
        ensures { result ≡ (model self.now).clock }
    {
        self.clock
    }

    /// Closes the day, and records its last clock: every call before left a word for that.
    pub fn close<T: Trace>(self, trace: &mut T) -> ClosedDay
        ensures day { result.clock ≡ (model self).clock }
        ensures trace { T.Trace.page trace.new ≡ marked_all (T.Trace.page trace.old) (closing_marks (model self).clock) }
    {
        record_closing(Payload::of(self.clock), trace);
        ClosedDay::closed_at(self.clock)
    }
}
