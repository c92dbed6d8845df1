//! Admitting a sheet, and looking at one that was admitted.
ghost use Rattle.std.specs.Prelude.{◌≡◌};
ghost use Rattle.cues.specs.CueLists.{cues_of};
ghost use Rattle.cues.specs.Cues.{jobs_of};
ghost use Rattle.cues.specs.Demand.{Feasible};
ghost use Rattle.sheet.specs.Sheets.{jobs};
ghost use Rattle.sheet.specs.Admission.{Admission, Loaded};

use super::{AdmittedSheet, NotAdmitted};
use crate::read::ReadSheet;
use cues::cue::Cue;
use cues::load::Load;
use faults::{ReadError, SheetFault};
use rates::RateTable;
use std::alloc::Global;

impl ReadSheet {
    /// Admits the sheet if no interval demands more ticks than it has, and otherwise gives it back.
    pub fn admit(self, heap: Global) -> Result<AdmittedSheet, NotAdmitted>
        ensures { Admission self result }
    {
        if let Err(why) = check_load(&self, heap) {
            return Err(NotAdmitted { sheet: self, why });
        }
        Ok(AdmittedSheet { sheet: self })
    }
}

/// No interval of the sheet demands more ticks than it has; otherwise the one of the loading factor is the fault.
fn check_load(sheet: &ReadSheet, heap: Global) -> Result<(), ReadError>
    ensures { Loaded sheet.now result }
{
    let load = Load::from(sheet.loading_factor(heap)?);
    if load.demand <= load.length {
        return Ok(());
    }
    let place = sheet.end_place();
    Err(ReadError::Fault(SheetFault::Overloaded { load, place }))
}

impl AdmittedSheet {
    /// The sheet that was admitted.
    pub fn sheet(&self) -> &ReadSheet
        ensures same { result.now ≡ self.now.sheet }
        ensures feasible { Feasible (jobs self.now.sheet) }
    {
        &self.sheet
    }

    /// The rate table.
    pub fn table(&self) -> RateTable
        ensures { result ≡ self.now.sheet.table }
    {
        *self.sheet.table()
    }

    /// The cues, in the order of the sheet: no interval demands more ticks of them than it has.
    pub fn cues(&self) -> &[Cue]
        ensures same { result.now ≡ cues_of self.now.sheet.cues }
        ensures feasible { Feasible (jobs_of result.now) }
    {
        self.sheet.cues().as_slice()
    }
}
