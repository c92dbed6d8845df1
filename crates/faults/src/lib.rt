//! What can be wrong with a sheet, in layers: a fault of a word becomes the fault of a cue, and that the fault of the
//! sheet. Each layer adds its place and holds the lower fault whole. A fault is told by its layer, its number and its
//! place.
#![tactic(auto)]

ghost use Rattle.std.specs.Prelude.{◌≡◌};
ghost use Rattle.faults.specs.declared.CueFault.TheVariants.{BadWord as cue_word, Refused as cue_refused};
ghost use Rattle.faults.specs.declared.SheetFault.TheVariants.{BadWord as sheet_word, BadCue, BadTable};
ghost use Rattle.faults.specs.declared.ReadError.TheVariants.{Fault, NoMemory};

mod report;

use cues::load::Load;
use cues::refusal::CueRefusal;
use rates::TableRefusal;
use std::alloc::{AllocError, AllocFailed};
use words::fault::WordFault;

/// A cue that cannot be read.
#[derive(Clone, Copy, PartialEq, Eq, Debug)]
pub enum CueFault {
    /// The word at this place is wrong.
    BadWord { place: usize, fault: WordFault },
    /// Its four words are there, and make no cue.
    Refused(CueRefusal),
}

/// A sheet that cannot be used.
#[derive(Clone, Copy, PartialEq, Eq, Debug)]
pub enum SheetFault {
    /// The word at this place, outside any cue, is wrong.
    BadWord { place: usize, fault: WordFault },
    /// The cue whose first word stands at this place is wrong.
    BadCue { place: usize, fault: CueFault },
    /// The rates make no table.
    BadTable(TableRefusal),
    /// The cue that begins at this place is one more than a sheet may have.
    TooManyCues { place: usize },
    /// The interval of this load demands more ticks than it has; `place` is that of the end word.
    Overloaded { load: Load, place: usize },
}

/// Why no sheet came of the words, or why one was not admitted: a fault of theirs, or want of memory.
#[derive(Clone, Copy, PartialEq, Eq, Debug)]
pub enum ReadError {
    Fault(SheetFault),
    NoMemory,
}

/// What comes back with a fault, beside its number.
#[derive(Clone, Copy, PartialEq, Eq, Debug)]
pub enum Returned {
    /// A word's place, a count of words, a table's or a cue's wrong value, or the most cues of a sheet.
    Value(usize),
    /// The interval that demands more ticks than it has.
    Interval(Load),
}

/// Which part of a sheet a fault is about.
#[derive(Clone, Copy, PartialEq, Eq, Debug)]
pub enum Layer {
    Word,
    Cue,
    Sheet,
}

impl From<(usize, WordFault)> for CueFault {
    ghost from_gives = { λ at r. r ≡ cue_word at.0 at.1 };

    fn from(at: (usize, WordFault)) -> CueFault {
        let (place, fault) = at;
        CueFault::BadWord { place, fault }
    }
}

impl From<CueRefusal> for CueFault {
    ghost from_gives = { λ refusal r. r ≡ cue_refused refusal };

    fn from(refusal: CueRefusal) -> CueFault {
        CueFault::Refused(refusal)
    }
}

impl From<(usize, WordFault)> for SheetFault {
    ghost from_gives = { λ at r. r ≡ sheet_word at.0 at.1 };

    fn from(at: (usize, WordFault)) -> SheetFault {
        let (place, fault) = at;
        SheetFault::BadWord { place, fault }
    }
}

impl From<(usize, CueFault)> for SheetFault {
    ghost from_gives = { λ at r. r ≡ BadCue at.0 at.1 };

    fn from(at: (usize, CueFault)) -> SheetFault {
        let (place, fault) = at;
        SheetFault::BadCue { place, fault }
    }
}

impl From<TableRefusal> for SheetFault {
    ghost from_gives = { λ refusal r. r ≡ BadTable refusal };

    fn from(refusal: TableRefusal) -> SheetFault {
        SheetFault::BadTable(refusal)
    }
}

impl From<SheetFault> for ReadError {
    ghost from_gives = { λ fault r. r ≡ Fault fault };

    fn from(fault: SheetFault) -> ReadError {
        ReadError::Fault(fault)
    }
}

impl From<AllocError> for ReadError {
    ghost from_gives = { λ _ r. r ≡ NoMemory };

    fn from(_e: AllocError) -> ReadError {
        ReadError::NoMemory
    }
}

impl<T: Drop> From<AllocFailed<T>> for ReadError {
    ghost from_gives = { λ _ r. r ≡ NoMemory };

    fn from(_e: AllocFailed<T>) -> ReadError {
        ReadError::NoMemory
    }
}
