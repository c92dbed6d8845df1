//! What programs in other languages may call. Numbers pass as themselves, bytes as a pointer and a length, and the
//! allocator takes no bytes.
#![tactic(auto)]

ghost use Rattle.boundary.specs.Rounds.{Found, Told};

mod ticks;

use sheet::read::ReadSheet;
use std::alloc::{AllocError, Global};

/// The demand of a sheet's loading factor, found `rounds` times over.
fn demand_after(heap: Global, sheet: &ReadSheet, rounds: u32) -> Result<u32, AllocError>
    ensures { Found sheet.now rounds result }
{
    let mut demand = 0;
    for _ in 0..rounds {
        let (found, _, _, _) = sheet.loading_factor(heap)?;
        demand = found;
    }
    Ok(demand)
}

/// Reads a sheet, finds its loading factor `rounds` times over, and tells its demand; the largest number for a sheet
/// that cannot be read or for want of memory. For timing: one round tells as much as many.
// To C a result is one number, so the largest number stands for every failure.
#[unsafe(no_mangle)]
pub extern "C" fn patchbasalt_load(heap: Global, sheet: &[u8], rounds: u32) -> u64
    ensures { Told sheet.now rounds result }
{
    let Ok(read) = ReadSheet::from_bytes(heap, sheet) else {
        return u64::MAX;
    };
    demand_after(heap, &read, rounds).map_or(u64::MAX, u64::from)
}

pub use ticks::patchbasalt_ticks;
