//! The load of an interval, and which of two loads comes first.
ghost use Rattle.std.specs.Prelude.{◌≡◌};
ghost use Rattle.cues.specs.declared.load.Load.{Load};
ghost use Rattle.cues.specs.Orders.{candidate_before, candidate_equal};
ghost use Rattle.cues.specs.CandidateOrder.{candidate_lawful};

use ordering::Before;

/// What the cues of an interval demand, its length, its start and its end.
#[derive(Clone, Copy, PartialEq, Eq, Debug)]
pub struct Load {
    pub demand: u32,
    pub length: u32,
    pub start: u32,
    pub end: u32,
}

impl From<(u32, u32, u32, u32)> for Load {
    ghost from_gives = { λ numbers r. r ≡ record { demand = numbers.0; length = numbers.1; start = numbers.2; end = numbers.3 } };

    fn from(numbers: (u32, u32, u32, u32)) -> Load {
        let (demand, length, start, end) = numbers;
        Load {
            demand,
            length,
            start,
            end,
        }
    }
}

impl From<Load> for (u32, u32, u32, u32) {
    ghost from_gives = { λ load r. r ≡ (load.demand, load.length, load.start, load.end) };

    fn from(load: Load) -> (u32, u32, u32, u32) {
        (load.demand, load.length, load.start, load.end)
    }
}

impl Before for Load {
    ghost before = { candidate_before };

    ghost equal = { candidate_equal };

    ghost lawful = { candidate_lawful };

    // The ratios are compared by cross-multiplication, which is exact; an empty interval counts as one tick.
    fn is_before(&self, other: &Load) -> bool {
        let ours = u64::from(self.demand) * u64::from(other.length.max(1));
        let theirs = u64::from(other.demand) * u64::from(self.length.max(1));
        theirs < ours || (theirs == ours && (self.start, self.end) < (other.start, other.end))
    }
}
