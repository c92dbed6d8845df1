//! Reading the words of a sheet, one part after the other.
ghost use Rattle.std.specs.Prelude.{◌≡◌};
ghost use Rattle.sheet.specs.Parts.{CueWords, CueHere, NextCue, EndWord, Cues, Added, not_added, not_headed, entries_of, Judged, Whole};

use cues::cue::Cue;
use cues::list::CueList;
use cues::refusal::ListRefusal;
use faults::{CueFault, ReadError, SheetFault};
use heading::{Head, HeadError, read_head};
use rates::RateTable;
use std::alloc::Global;
use words::fault::WordFault;
use words::unread::Unread;
use words::{Kind, is_kind, payload_of};

/// The payloads of the four words of a cue; the first word that is wrong or missing is the fault.
fn cue_words(left: Unread<'_>) -> Result<(u32, u32, u32, u32), (usize, WordFault)>
    ensures { CueWords left.entry.place left.entry.words.now result }
{
    let misplaced = match left.words() {
        [release, ..] if !is_kind(*release, Kind::Release) => left.place(),
        [_, deadline, ..] if !is_kind(*deadline, Kind::Deadline) => left.nth_place(1),
        [_, _, budget, ..] if !is_kind(*budget, Kind::Budget) => left.nth_place(2),
        [_, _, _, actual, ..] if !is_kind(*actual, Kind::Spent) => left.nth_place(3),
        [release, deadline, budget, actual, ..] => {
            return Ok((
                payload_of(*release),
                payload_of(*deadline),
                payload_of(*budget),
                payload_of(*actual),
            ));
        }
        _ => return Err((left.end(), WordFault::EndsEarly)),
    };
    Err((misplaced, WordFault::Misplaced))
}

/// The cue that the next four words make.
fn cue_here(left: Unread<'_>) -> Result<Cue, CueFault>
    ensures { CueHere left.entry.place left.entry.words.now result }
{
    let (release, deadline, budget, actual) = cue_words(left)?;
    Ok(Cue::new(release, deadline, budget, actual)?)
}

/// The cue that comes next, or none where the end word does.
fn next_cue(left: Unread<'_>) -> Result<Option<Cue>, SheetFault>
    ensures { NextCue left.entry.place left.entry.words.now result }
{
    if left.begins_with(Kind::End) {
        return Ok(None);
    }
    // A match and no `map_err`: between one result more and the next the cue is moved piece by piece, for twice the time.
    match cue_here(left) {
        Ok(cue) => Ok(Some(cue)),
        Err(fault) => Err(SheetFault::from((left.place(), fault))),
    }
}

/// The end word counts the cues, and nothing follows it.
fn check_end(left: Unread<'_>, cues: usize) -> Result<(), SheetFault>
    ensures { EndWord left.entry.place cues left.entry.words.now result }
{
    let misplaced = match left.words() {
        [end, ..] if payload_of(*end) as usize != cues => left.place(),
        [_, _, ..] => left.nth_place(1),
        _ => return Ok(()),
    };
    Err(SheetFault::from((misplaced, WordFault::Misplaced)))
}

/// What is wrong with a sheet whose cue at `place` was not added.
fn not_added(refusal: ListRefusal, place: usize) -> ReadError
    ensures { result ≡ not_added refusal place }
{
    match refusal {
        ListRefusal::Full { .. } => ReadError::Fault(SheetFault::TooManyCues { place }),
        ListRefusal::NoMemory => ReadError::NoMemory,
    }
}

/// Adds a cue that begins at `place`.
fn add_cue(cues: &mut CueList, cue: Cue, place: usize) -> Result<(), ReadError>
    ensures { Added (entries_of cues.old) cue place result (entries_of cues.new) }
{
    cues.push(cue).map_err(|refusal| not_added(refusal, place))
}

/// The cues up to the end word, which is the last.
fn read_cues(heap: Global, first: Unread<'_>) -> Result<CueList, ReadError>
    ensures { Cues first.entry.place first.entry.words.now result }
{
    let mut cues = CueList::new(heap);
    let mut left = first;
    while let Some(cue) = next_cue(left)? {
        add_cue(&mut cues, cue, left.place())?;
        left = left.behind(4);
    }
    check_end(left, cues.len())?;
    Ok(cues)
}

/// What is wrong with a sheet that has no head.
// No `From`: both types belong to other crates.
fn not_headed(error: HeadError) -> ReadError
    ensures { result ≡ not_headed error }
{
    match error {
        HeadError::FirstWord(fault) => ReadError::Fault(SheetFault::from((0, fault))),
        HeadError::NoMemory => ReadError::NoMemory,
    }
}

/// The table of the rates at the head of a sheet, judged once a word of another kind follows them.
fn judge_rates(head: &Head<'_>) -> Result<RateTable, SheetFault>
    ensures { Judged head.now.rates.items head.now.rest.place head.now.rest.words.now result }
{
    if head.rest.words().is_empty() {
        return Err(SheetFault::from((head.rest.place(), WordFault::EndsEarly)));
    }
    Ok(RateTable::new(head.rates.as_slice())?)
}

/// What the words of a whole sheet hold.
pub(crate) fn read_words(heap: Global, words: &[u32]) -> Result<(RateTable, CueList), ReadError>
    ensures { Whole words.now result }
{
    let head = read_head(heap, words).map_err(not_headed)?;
    let table = judge_rates(&head)?;
    let cues = read_cues(heap, head.rest)?;
    Ok((table, cues))
}
