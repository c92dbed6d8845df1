//! Ticks of a day that is not recorded, for timing.
ghost use Rattle.std.specs.Prelude.{◌≡◌, min};
ghost use Rattle.scheduler.specs.Model.{model};

use rates::{Least, RateTable};
use recorder::{NoWords, Trace};
use renderers::tape::AnswerTape;
use scheduler::day::Day;

/// A job's deadline and budget: with these no job ends in the first 65,534 ticks.
const DEADLINE: u32 = 134_217_727;

const BUDGET: u32 = 65_535;

/// Releases so many jobs, as far as the day takes them.
fn release_jobs(day: &mut Day, jobs: u32)
    ensures { (model day.new).clock ≡ (model day.old).clock }
{
    for _ in 0..jobs {
        let _ = day.release(DEADLINE, BUDGET, &mut NoWords);
    }
}

/// Ticks a day at clock 0 so many times, at the least level and with a renderer that is never done.
fn tick_on(day: &mut Day, ticks: u32)
    requires { (model day.old).clock ≡ 0 }
    ensures { (model day.new).clock ≡ min ticks 134217727 }
{
    let mut policy = Least;
    let mut renderer = AnswerTape::over(&[]);
    let mut trace = NoWords;
    for _ in 0..ticks {
        let _ = day.tick(&mut policy, &mut renderer, &mut trace);
    }
}

/// Ticks a fresh day with so many jobs so many times, and tells its clock, which stops at 134,217,727.
#[unsafe(no_mangle)]
pub extern "C" fn patchbasalt_ticks(jobs: u32, ticks: u32) -> u32
    ensures { result ≡ min ticks 134217727 }
{
    let table = RateTable::new(&[7, 10, 12, 14]).unwrap();
    let mut day = Day::open(table, &mut NoWords).unwrap();
    release_jobs(&mut day, jobs);
    tick_on(&mut day, ticks);
    day.clock()
}
