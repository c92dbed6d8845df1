//! The loading factor of a list of cues. An interval with the greatest demand for its length begins at a release and ends at a
//! deadline, so these are the candidates; for each release one pass over the cues in the order of their deadlines finds the
//! demand of them all.
ghost use Rattle.std.specs.Prelude.{◌≡◌, ◌≤◌, vec_len, drop, IfOk, OnOk};
ghost use Rattle.std.specs.List.Sorted.{IsNonDecreasingBy};
ghost use Rattle.cues.specs.Candidates.{ByDeadline, DueAfter, DueLater, Written, BestFrom, Bests, FirstOfBests};
ghost use Rattle.cues.specs.CueLists.{cues_of};
ghost use Rattle.cues.specs.Cues.{jobs_of};
ghost use Rattle.cues.specs.Loading.{Loading};

use crate::cue::Cue;
use crate::list::CueList;
use crate::load::Load;
use ordering::first_of;
use std::alloc::{AllocError, Global};

impl CueList {
    /// The greatest demand for its length, as (demand, length, start, end); (0, 1, 0, 1) for a list of no cue.
    // A tuple by the rules of the sheet check; `Load` comes of it by `From`.
    pub fn loading_factor(&self, heap: Global) -> Result<(u32, u32, u32, u32), AllocError>
        ensures { IfOk result (λ t. Loading (jobs_of (cues_of self.now)) t.0 t.1 t.2 t.3) }
    {
        let dues = Dues::new(heap, self)?;
        let bests = dues.best_from_each(heap, self.as_slice())?;
        Ok(first_of_bests(bests.as_slice()))
    }
}

/// The cues of a list in the order of their deadlines.
#[derive(Drop)]
struct Dues {
    cues: Vec<Cue>,
    ghost few: { vec_len cues ≤ 1024 },
    ghost rising: { IsNonDecreasingBy (λ cue. cue.deadline) cues.items },
}

impl Dues {
    fn new(heap: Global, list: &CueList) -> Result<Dues, AllocError>
        ensures { IfOk result (λ dues. ByDeadline (cues_of list.now) dues.cues.items) }
    {
        // Collected and not copied as a slice: that copies by a function of C, which the archive for C then wants from outside.
        let mut cues: Vec<Cue> = list.as_slice().iter().copied().collect(heap)?;
        cues.sort_unstable_by_key(|cue| cue.deadline());
        Ok(Dues { cues })
    }

    /// The cues that are due after the start.
    fn after(&self, start: u32) -> &[Cue]
        ensures { (late : _) × DueAfter start self.now.cues.items late × (result.now ≡ drop late self.now.cues.items) }
    {
        let late = self
            .cues
            .as_slice()
            .partition_point(|cue| cue.deadline() <= start);
        &self.cues[late..]
    }

    /// The best candidate from the release of each cue. The candidates of one release are written over those of the one before.
    fn best_from_each(&self, heap: Global, cues: &[Cue]) -> Result<Vec<Load>, AllocError>
        requires { ByDeadline cues.now self.now.cues.items }
        ensures { IfOk result (λ bests. Bests cues.now self.now.cues.items bests.items) }
    {
        let mut candidates = Vec::with_capacity(heap, cues.len())?;
        let mut bests = Vec::with_capacity(heap, cues.len())?;
        for cue in cues {
            bests.push(self.best_from(cue.release(), &mut candidates)?)?;
        }
        Ok(bests)
    }

    /// The best candidate from a start after which some cue is due.
    fn best_from(&self, start: u32, candidates: &mut Vec<Load>) -> Result<Load, AllocError>
        requires { DueLater start self.now.cues.items }
        ensures { IfOk result (λ best. BestFrom start self.now.cues.items best) }
    {
        self.write_candidates(start, candidates)?;
        let place = first_of(candidates.as_slice()).unwrap();
        Ok(candidates[place])
    }

    /// Writes the candidate from the start to each later deadline. A cue that is due by the start was released before it, so the
    /// sum begins with the first later one. Inside a run of equal deadlines the sum still lacks some cues; the last of the run has
    /// them all. Nothing wraps: the budgets of 1,024 cues fit, and each later deadline is past the start.
    // A chain and no loop that pushes: the loop took a quarter longer for a whole list.
    fn write_candidates(&self, start: u32, candidates: &mut Vec<Load>) -> Result<(), AllocError>
        ensures { OnOk result (Written start self.now.cues.items candidates.new.items) }
    {
        let next = |demand: &mut u32, cue: &Cue| {
            if start <= cue.release() {
                *demand = demand.wrapping_add(cue.budget());
            }
            let end = cue.deadline();
            Some(Load {
                demand: *demand,
                length: end.wrapping_sub(start),
                start,
                end,
            })
        };
        candidates.clear();
        candidates.extend(self.after(start).iter().scan(0, next))
    }
}

/// The first of the best candidates, as a tuple.
fn first_of_bests(bests: &[Load]) -> (u32, u32, u32, u32)
    ensures { FirstOfBests bests.now result }
{
    match first_of(bests) {
        Some(place) => bests[place].into(),
        None => (0, 1, 0, 1),
    }
}
