//! A script: the rates of a table, the calls of a day and the answers of a renderer, as words. Edition 1 comes first,
//! then a word for each rate. A deadline with its budget is a release, and a word of ticks stands for so many of them.
//! The end word counts the words of the answer tape, which follow it and are the last.
#![tactic(auto)]

ghost use Rattle.std.specs.Prelude.{◌≡◌, ◌≤◌, ◌++◌, replicate, Ok, Err};
ghost use Rattle.calls.specs.declared.call.Call.TheVariants.{Tick};
ghost use Rattle.script.specs.declared.ScriptError.TheVariants.{NoMemory};
ghost use Rattle.script.specs.Parts.{After, WrongAt, Tape, Calls, not_headed};
ghost use Rattle.script.specs.Scripts.{ReadAs, ReadBytesAs};
ghost use Rattle.script.specs.ScriptWords.{Written, WrittenBytes};

use calls::call::Call;
use heading::{HeadError, read_head};
use std::alloc::{AllocError, AllocFailed, Global};
use std::iter::repeat_n;
use words::unread::Unread;
use words::{Kind, is_kind, payload_of, words_of};

/// The most ticks that a script may ask for.
const MOST_TICKS: u32 = 1_000_000;

/// What is rehearsed: calls of a day with this table, and what the renderer answers.
#[derive(Drop)]
pub struct Script {
    /// The rates as they stand, whether or not they make a table.
    pub rates: Vec<u32>,
    /// The calls in their order; n ticks are n calls.
    pub calls: Vec<Call>,
    /// The words of the answer tape.
    pub tape: Vec<u32>,
}

/// Why no script came of the bytes.
#[derive(Clone, Copy, PartialEq, Eq, Debug)]
pub enum ScriptError {
    /// The word at this place, counted from 0, is the first that is wrong or missing.
    WrongWord { place: usize },
    NoMemory,
}

impl From<AllocError> for ScriptError {
    ghost from_gives = { λ _ r. r ≡ NoMemory };

    fn from(_e: AllocError) -> ScriptError {
        ScriptError::NoMemory
    }
}

impl<T: Drop> From<AllocFailed<T>> for ScriptError {
    ghost from_gives = { λ _ r. r ≡ NoMemory };

    fn from(_e: AllocFailed<T>) -> ScriptError {
        ScriptError::NoMemory
    }
}

impl From<HeadError> for ScriptError {
    ghost from_gives = { λ error r. r ≡ not_headed error };

    fn from(error: HeadError) -> ScriptError {
        match error {
            HeadError::FirstWord(_) => ScriptError::WrongWord { place: 0 },
            HeadError::NoMemory => ScriptError::NoMemory,
        }
    }
}

/// One part of the calls.
#[derive(Clone, Copy)]
enum Part {
    Release { deadline: u32, budget: u32 },
    /// So many ticks.
    Ticks(u32),
    /// The end of the calls; it counts the words of the tape.
    End(u32),
}

/// The next part of the calls and what is left behind it, or the place of the first wrong or missing word. So many
/// ticks came before.
fn next_part(left: Unread<'_>, ticks: u32) -> Result<(Part, Unread<'_>), ScriptError>
    requires { ticks ≤ 1000000 }
    ensures { elim result [ Ok p ↦ After left.entry.place ticks left.entry.words.now p.0 p.1.place p.1.words.now | Err e ↦ WrongAt left.entry.place ticks left.entry.words.now e ] }
{
    let place = match left.words() {
        [end, ..] if is_kind(*end, Kind::End) => {
            return Ok((Part::End(payload_of(*end)), left.behind(1)));
        }
        [count, ..] if is_kind(*count, Kind::Spent) => {
            let count = payload_of(*count);
            if count > MOST_TICKS - ticks {
                return Err(ScriptError::WrongWord {
                    place: left.place(),
                });
            }
            return Ok((Part::Ticks(count), left.behind(1)));
        }
        [deadline, ..] if !is_kind(*deadline, Kind::Deadline) => left.place(),
        [_, budget, ..] if !is_kind(*budget, Kind::Budget) => left.nth_place(1),
        [deadline, budget, ..] => {
            let deadline = payload_of(*deadline);
            let budget = payload_of(*budget);
            return Ok((Part::Release { deadline, budget }, left.behind(2)));
        }
        _ => left.end(),
    };
    Err(ScriptError::WrongWord { place })
}

/// Adds ticks behind the calls.
fn push_ticks(calls: &mut Vec<Call>, count: u32) -> Result<(), ScriptError>
    ensures { elim result [ Ok done ↦ calls.new.items ≡ calls.old.items ++ replicate count Tick | Err e ↦ e ≡ NoMemory ] }
{
    // Room by powers of two, as pushing takes it: an exact room would be doubled by the call that comes next.
    let wanted = calls.len().saturating_add(count as usize);
    if let Some(room) = wanted.checked_next_power_of_two() {
        calls.reserve_exact(room - calls.len())?;
    }
    calls.extend(repeat_n(Call::Tick, count as usize))?;
    Ok(())
}

/// The tape, exactly as long as the end word counts.
fn read_tape(heap: Global, tape: Unread<'_>, count: u32) -> Result<Vec<u32>, ScriptError>
    ensures { Tape tape.entry.place count tape.entry.words.now result }
{
    if tape.words().len() != count as usize {
        let place = tape.nth_place(count as usize);
        return Err(ScriptError::WrongWord { place });
    }
    Ok(tape.words().to_vec(heap)?)
}

/// The calls and the tape behind them.
fn read_calls(heap: Global, first: Unread<'_>) -> Result<(Vec<Call>, Vec<u32>), ScriptError>
    ensures { Calls first.entry.place first.entry.words.now result }
{
    let mut calls = Vec::new(heap);
    let mut ticks = 0;
    let mut left = first;
    loop {
        let (part, rest) = next_part(left, ticks)?;
        match part {
            Part::Release { deadline, budget } => {
                calls.push(Call::Release { deadline, budget })?;
            }
            Part::Ticks(count) => {
                push_ticks(&mut calls, count)?;
                ticks += count;
            }
            Part::End(count) => {
                let tape = read_tape(heap, rest, count)?;
                return Ok((calls, tape));
            }
        }
        left = rest;
    }
}

/// The script that the words are.
fn read_words(heap: Global, words: &[u32]) -> Result<Script, ScriptError>
    ensures read { ReadAs words.now result }
    ensures written { Written words.now result }
{
    let head = read_head(heap, words)?;
    let (calls, tape) = read_calls(heap, head.rest)?;
    Ok(Script {
        rates: head.rates,
        calls,
        tape,
    })
}

/// Reads the bytes of a script, four to a word. A last word that is cut short is missing.
// As a sheet is read, and no function for both: it would take the reader and the fault as closures, for three steps.
pub fn read_script(heap: Global, bytes: &[u8]) -> Result<Script, ScriptError>
    ensures read { ReadBytesAs bytes.now result }
    ensures written { WrittenBytes bytes.now result }
{
    let words = words_of(heap, bytes)?;
    let script = read_words(heap, words.as_slice())?;
    if bytes.len() % 4 != 0 {
        let place = words.len();
        return Err(ScriptError::WrongWord { place });
    }
    Ok(script)
}
