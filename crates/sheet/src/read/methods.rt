//! Reading a sheet from words or bytes, and looking at what it holds.
ghost use Rattle.std.specs.Prelude.{◌≡◌, IfOk};
ghost use Rattle.cues.specs.Loading.{Loading};
ghost use Rattle.sheet.specs.Sheets.{ReadAs, ReadBytesAs, Placed, end_place, jobs};
ghost use Rattle.sheet.specs.SheetWords.{Written, WrittenBytes};

use super::ReadSheet;
use crate::reading::read_words;
use cues::list::CueList;
use faults::{ReadError, SheetFault};
use rates::RateTable;
use std::alloc::{AllocError, Global};
use words::fault::WordFault;
use words::words_of;

impl ReadSheet {
    /// Reads the words of a sheet.
    pub fn from_words(heap: Global, words: &[u32]) -> Result<ReadSheet, ReadError>
        ensures read { ReadAs words.now result }
        ensures written { Written words.now result }
        ensures placed { Placed words.now result }
    {
        let (table, cues) = read_words(heap, words)?;
        Ok(ReadSheet { table, cues })
    }

    /// Reads the bytes of a sheet, four to a word. A last word that is cut short ends the words early.
    // As a script is read, and no function for both: it would take the reader and the fault as closures, for three steps.
    pub fn from_bytes(heap: Global, bytes: &[u8]) -> Result<ReadSheet, ReadError>
        ensures read { ReadBytesAs bytes.now result }
        ensures written { WrittenBytes bytes.now result }
    {
        let words = words_of(heap, bytes)?;
        let sheet = ReadSheet::from_words(heap, words.as_slice())?;
        if bytes.len() % 4 != 0 {
            let early = SheetFault::from((words.len(), WordFault::EndsEarly));
            return Err(ReadError::Fault(early));
        }
        Ok(sheet)
    }

    /// The rate table.
    pub fn table(&self) -> &RateTable
        ensures { result.now ≡ self.now.table }
    {
        &self.table
    }

    /// The cues, in the order of the sheet.
    pub fn cues(&self) -> &CueList
        ensures { result.now ≡ self.now.cues }
    {
        &self.cues
    }

    /// The place of the end word.
    pub fn end_place(&self) -> usize
        ensures { result ≡ end_place self.now }
    {
        1 + self.table.levels() + 4 * self.cues.len()
    }

    /// The greatest demand for its length, as (demand, length, start, end).
    pub fn loading_factor(&self, heap: Global) -> Result<(u32, u32, u32, u32), AllocError>
        ensures { IfOk result (λ t. Loading (jobs self.now) t.0 t.1 t.2 t.3) }
    {
        self.cues.loading_factor(heap)
    }
}
