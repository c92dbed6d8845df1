//! A rehearsal: a script is made ready, which fails where its shape is wrong or its rates make no table, and is played.
ghost use Rattle.std.specs.Prelude.{◌≡◌, IfOk};
ghost use Rattle.rates.specs.Table.{rates_of};
ghost use Rattle.script.specs.declared.ScriptError.TheVariants.{WrongWord, NoMemory as no_memory};
ghost use Rattle.dayplay.specs.declared.rehearsal.PrepareError.TheVariants.{WrongScript, WrongTable, NoMemory};
ghost use Rattle.dayplay.specs.Preparing.{Prepares};
ghost use Rattle.dayplay.specs.Rehearsing.{Rehearses};
ghost use Rattle.script.specs.Scripts.{contents};

use crate::line::Line;
use calls::call::Reply;
use calls::refusal::Refusal;
use playing::evening::play_evening;
use playing::play::PlayError;
use rates::{Least, RateTable, TableRefusal};
use renderers::tape::AnswerTape;
use script::{Script, ScriptError, read_script};
use std::alloc::{AllocError, Global};
use std::fmt;

/// A script with the table of its rates.
#[derive(Drop)]
pub struct Prepared {
    pub table: RateTable,
    pub script: Script,
}

/// Why nothing is made ready.
#[derive(Clone, Copy, PartialEq, Eq, Debug)]
pub enum PrepareError {
    /// The bytes are no script: the word at this place is the first that is wrong or missing.
    WrongScript { place: usize },
    /// The rates of the script make no table.
    WrongTable(TableRefusal),
    NoMemory,
}

impl From<ScriptError> for PrepareError {
    ghost from_gives = { λ error e. e ≡ elim error [ WrongWord place ↦ WrongScript place | no_memory ↦ NoMemory ] };

    fn from(error: ScriptError) -> PrepareError {
        match error {
            ScriptError::WrongWord { place } => PrepareError::WrongScript { place },
            ScriptError::NoMemory => PrepareError::NoMemory,
        }
    }
}

impl From<TableRefusal> for PrepareError {
    ghost from_gives = { λ refusal e. e ≡ WrongTable refusal };

    fn from(refusal: TableRefusal) -> PrepareError {
        PrepareError::WrongTable(refusal)
    }
}

/// Reads a script and makes its table. The shape of the whole script is judged before the table.
pub fn prepare(heap: Global, bytes: &[u8]) -> Result<Prepared, PrepareError>
    ensures { Prepares bytes.now result }
{
    let script = read_script(heap, bytes)?;
    let table = RateTable::new(script.rates.as_slice())?;
    Ok(Prepared { table, script })
}

/// What came of a rehearsal.
#[derive(Drop)]
pub struct Rehearsal {
    /// The answers to the calls, in their order.
    pub replies: Vec<Result<Reply, Refusal>>,
    /// The clock at which the day was closed.
    pub clock: u32,
    /// How often the renderer was asked.
    pub requests: u32,
    /// The words of the day's trace.
    pub trace: Vec<u32>,
}

/// The words that are lent to the day for its trace.
const TRACE_WORDS: usize = 16_384;

/// Plays the calls of a script on a fresh day, at the least level and with the answers of its tape, records the day, and
/// closes it. The words that are lent for it suffice for every table.
pub fn rehearse(heap: Global, table: RateTable, script: &Script) -> Result<Rehearsal, AllocError>
    ensures { IfOk result (λ done. Rehearses (rates_of table) (contents script.now) done) }
{
    let mut words = vec![in heap; 0; TRACE_WORDS]?;
    let mut tape = AnswerTape::over(script.tape.as_slice());
    let calls = script.calls.as_slice();
    let evening = play_evening(
        heap,
        table,
        calls,
        &mut Least,
        &mut tape,
        words.as_mut_slice(),
    )
    .map_err(want_of_memory)?;
    words.truncate(evening.written);
    Ok(Rehearsal {
        replies: evening.replies,
        clock: evening.clock,
        requests: tape.requests(),
        trace: words,
    })
}

/// The error of a rehearsal: there are words enough, so that nothing but memory can be wanting.
fn want_of_memory(error: PlayError) -> AllocError
    requires { error ≡ PlayError.NoMemory }
{
    match error {
        PlayError::NoMemory => AllocError,
        PlayError::Refused(_) => unreachable(),
    }
}

/// A line a call, then the clock and the requests, then the trace, a word a line.
impl fmt::Display for Rehearsal {
    fn fmt<W: fmt::Write>(&self, f: &mut fmt::Formatter<W>) -> fmt::Result {
        for reply in &self.replies {
            writeln!(f, "{}", Line(*reply))?;
        }
        let clock = self.clock;
        let requests = self.requests;
        writeln!(f, "clock {clock} requests {requests}")?;
        for word in &self.trace {
            writeln!(f, "{word:08X}")?;
        }
        Ok(())
    }
}
