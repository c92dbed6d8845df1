//! How a fault is reported: by its layer, its number and its place, and what comes back with it.
ghost use Rattle.std.specs.Prelude.{◌≡◌, Some};
ghost use Rattle.faults.specs.Fault.{cue_number, cue_layer, cue_place, cue_value, fault_number, fault_layer, fault_place, fault_returns, fault_of, fault_line, layer_name};

use crate::{CueFault, Layer, ReadError, Returned, SheetFault};
use cues::list::CueList;
use std::alloc::AllocError;
use std::fmt;

// Methods, and no trait of numbered faults: no caller takes any of them, and a cue's place needs that of its first word.
impl CueFault {
    /// The number of the fault, whichever layer it came about in.
    pub fn number(&self) -> u32
        ensures { result ≡ cue_number self.now }
    {
        match self {
            CueFault::BadWord { fault, .. } => fault.number(),
            CueFault::Refused(refusal) => refusal.number(),
        }
    }

    /// The layer that the fault came about in.
    pub fn layer(&self) -> Layer
        ensures { result ≡ cue_layer self.now }
    {
        match self {
            CueFault::BadWord { .. } => Layer::Word,
            CueFault::Refused(_) => Layer::Cue,
        }
    }

    /// The place of the fault in a cue whose first word stands at `first`.
    pub fn place(&self, first: usize) -> usize
        ensures { result ≡ cue_place first self.now }
    {
        match self {
            CueFault::BadWord { place, .. } => *place,
            CueFault::Refused(_) => first,
        }
    }

    /// What comes back with the fault: the place of the wrong or missing word, or the value that was refused.
    pub fn value(&self) -> usize
        ensures { result ≡ cue_value self.now }
    {
        match self {
            CueFault::BadWord { place, .. } => *place,
            CueFault::Refused(refusal) => refusal.value() as usize,
        }
    }
}

impl SheetFault {
    /// The number of the fault, whichever layer it came about in.
    pub fn number(&self) -> u32
        ensures { result ≡ fault_number self.now }
    {
        match self {
            SheetFault::BadWord { fault, .. } => fault.number(),
            SheetFault::BadCue { fault, .. } => fault.number(),
            SheetFault::BadTable(refusal) => refusal.number(),
            SheetFault::TooManyCues { .. } => 11,
            SheetFault::Overloaded { .. } => 13,
        }
    }

    /// The layer that the fault came about in.
    pub fn layer(&self) -> Layer
        ensures { result ≡ fault_layer self.now }
    {
        match self {
            SheetFault::BadWord { .. } => Layer::Word,
            SheetFault::BadCue { fault, .. } => fault.layer(),
            SheetFault::BadTable(_)
            | SheetFault::TooManyCues { .. }
            | SheetFault::Overloaded { .. } => Layer::Sheet,
        }
    }

    /// The place of the fault, a word's place from 0: a table's and a cue's fault stand at its first word.
    pub fn place(&self) -> usize
        ensures { result ≡ fault_place self.now }
    {
        match self {
            SheetFault::BadWord { place, .. }
            | SheetFault::TooManyCues { place }
            | SheetFault::Overloaded { place, .. } => *place,
            SheetFault::BadCue { place, fault } => fault.place(*place),
            SheetFault::BadTable(_) => 1,
        }
    }

    /// What comes back with the fault.
    pub fn returned(&self) -> Returned
        ensures { result ≡ fault_returns self.now }
    {
        match self {
            SheetFault::BadWord { place, .. } => Returned::Value(*place),
            SheetFault::BadCue { fault, .. } => Returned::Value(fault.value()),
            SheetFault::BadTable(refusal) => Returned::Value(refusal.value()),
            SheetFault::TooManyCues { .. } => Returned::Value(CueList::MOST as usize),
            SheetFault::Overloaded { load, .. } => Returned::Interval(*load),
        }
    }
}

impl ReadError {
    /// The fault, unless it was memory that was wanting.
    pub fn fault(self) -> Result<SheetFault, AllocError>
        ensures { result ≡ fault_of self }
    {
        match self {
            ReadError::Fault(fault) => Ok(fault),
            ReadError::NoMemory => Err(AllocError),
        }
    }
}

impl fmt::Display for Layer {
    ghost output = { λ l. Some (layer_name l) };

    fn fmt<W: fmt::Write>(&self, f: &mut fmt::Formatter<W>) -> fmt::Result {
        match self {
            Layer::Word => write!(f, "word"),
            Layer::Cue => write!(f, "cue"),
            Layer::Sheet => write!(f, "sheet"),
        }
    }
}

/// The layer, the number and the place, with one space between.
impl fmt::Display for SheetFault {
    ghost output = { λ f. Some (fault_line f) };

    fn fmt<W: fmt::Write>(&self, f: &mut fmt::Formatter<W>) -> fmt::Result {
        let layer = self.layer();
        let number = self.number();
        let place = self.place();
        write!(f, "{layer} {number} {place}")
    }
}
