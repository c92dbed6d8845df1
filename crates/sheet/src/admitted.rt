//! A sheet that was admitted: every one that exists demands in no interval more ticks than it has. It stands alone in
//! this file, so that the definitions that speak of it can be cited by its methods.
ghost use Rattle.cues.specs.Demand.{Feasible};
ghost use Rattle.sheet.specs.Sheets.{jobs};

mod methods;

use crate::read::ReadSheet;
use faults::ReadError;

/// A sheet that was admitted. Nothing but [`ReadSheet::admit`] makes one.
#[derive(Drop)]
pub struct AdmittedSheet {
    sheet: ReadSheet,
    ghost feasible: { Feasible (jobs sheet) },
}

/// A sheet that was not admitted, as it was, and why: it demands more ticks than there are, or memory was wanting.
#[derive(Drop)]
pub struct NotAdmitted {
    pub sheet: ReadSheet,
    pub why: ReadError,
}
