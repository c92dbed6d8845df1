//! What is told of a sheet.
ghost use Rattle.std.specs.Prelude.{IfOk, Some};
ghost use Rattle.sheetcheck.specs.Report.{Reports, Summarizes};
ghost use Rattle.sheetcheck.specs.Shown.{report_lines, summary_lines};

use cues::load::Load;
use faults::SheetFault;
use rates::RateTable;
use sheet::read::ReadSheet;
use std::alloc::{AllocError, Global};
use std::fmt;

/// What is told of a sheet: a summary, or the fault that keeps it from being read.
#[derive(Clone, Copy)]
pub struct Report(Result<Summary, SheetFault>);

/// What is told of a sheet that was read.
#[derive(Clone, Copy)]
pub struct Summary {
    table: RateTable,
    cues: usize,
    load: Load,
    /// The sheet is admitted, or refused for this fault.
    verdict: Result<(), SheetFault>,
}

/// What is told of the sheet that these bytes are.
pub fn report_on(heap: Global, bytes: &[u8]) -> Result<Report, AllocError>
    ensures { IfOk result (λ report. Reports bytes.now report.0) }
{
    let told = match ReadSheet::from_bytes(heap, bytes) {
        Ok(sheet) => Ok(summary_of(heap, sheet)?),
        Err(error) => Err(error.fault()?),
    };
    Ok(Report(told))
}

/// What is told of a sheet that was read.
fn summary_of(heap: Global, sheet: ReadSheet) -> Result<Summary, AllocError>
    ensures { IfOk result (λ summary. Summarizes sheet summary) }
{
    let table = *sheet.table();
    let cues = sheet.cues().len();
    let load = Load::from(sheet.loading_factor(heap)?);
    // A match and no `map_err`, here and above: where memory was wanting, the `?` leaves the whole function.
    let verdict = match sheet.admit(heap) {
        Ok(_) => Ok(()),
        Err(refused) => Err(refused.why.fault()?),
    };
    Ok(Summary {
        table,
        cues,
        load,
        verdict,
    })
}

impl fmt::Display for Report {
    ghost output = { λ r. Some (report_lines r.0) };

    fn fmt<W: fmt::Write>(&self, f: &mut fmt::Formatter<W>) -> fmt::Result {
        match self.0 {
            Ok(summary) => write!(f, "{summary}"),
            Err(fault) => write!(f, "{fault}"),
        }
    }
}

/// The rates, the number of cues, the loading factor and the verdict, a line each.
impl fmt::Display for Summary {
    ghost output = { λ s. Some (summary_lines s) };

    fn fmt<W: fmt::Write>(&self, f: &mut fmt::Formatter<W>) -> fmt::Result {
        write!(f, "rates")?;
        for rate in self.table.as_slice() {
            write!(f, " {rate}")?;
        }
        writeln!(f, "\ncues {}", self.cues)?;
        let Load {
            demand,
            length,
            start,
            end,
        } = self.load;
        writeln!(f, "load {demand} of {length} in {start} to {end}")?;
        match self.verdict {
            Ok(()) => write!(f, "admitted"),
            Err(refusal) => write!(f, "{refusal}"),
        }
    }
}
