//! The two runs that the law compares, with everything about speed forgotten: the reference run plays every job at full
//! speed, and the slowed run keeps each job up to its bound. What they share, and what the demand of the jobs says of the
//! reference run, is proved here once, for every list of calls; the day's own law rests on it.
#![tactic(auto)]

ghost use Rattle.runs.specs.TwoRuns.{AlwaysSound, MissedExactly, NeverBehind, OverByDeadline};

/// Says what holds of the two runs; there is nothing to run.
pub fn two_runs()
    ensures never_behind { NeverBehind }
    ensures sound { AlwaysSound }
    ensures in_time { OverByDeadline }
    ensures missed { MissedExactly }
{}
