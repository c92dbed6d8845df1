//! Tables and policies by example.

use crate::floor::{Floor, twice_floored_least};
use crate::least::Least;
use crate::level::Level;
use crate::policy::choose_level;
use crate::refusal::TableRefusal;
use crate::table::RateTable;
use crate::top::Top;
use crate::work::Work;
use std::test::Fail;

fn worked_table() -> Result<RateTable, TableRefusal> {
    RateTable::new(&[7, 10, 12, 14])
}

fn work(remaining: u32, ticks: u32) -> Work {
    Work { remaining, ticks }
}

fn refusal(rates: &[u32]) -> Option<TableRefusal> {
    RateTable::new(rates).err()
}

#[test]
fn least_is_the_lowest_sufficient_level(rt: HostRuntime) -> Result<(), Fail> {
    let table = worked_table()?;
    assert_eq!(rt;
        choose_level(&mut Least, &table, work(84, 7)),
        Some(Level(3))
    );
    assert_eq!(rt;
        choose_level(&mut Least, &table, work(85, 7)),
        Some(Level(4))
    );
    assert_eq!(rt;
        choose_level(&mut Least, &table, work(98, 7)),
        Some(Level(4))
    );
    assert_eq!(rt; choose_level(&mut Least, &table, work(99, 7)), None);
    assert_eq!(rt;
        choose_level(&mut Least, &table, work(0, 0)),
        Some(Level(1))
    );
    Ok(())
}

#[test]
fn top_is_the_last_level_or_none(rt: HostRuntime) -> Result<(), Fail> {
    let table = worked_table()?;
    assert_eq!(rt; choose_level(&mut Top, &table, work(98, 7)), Some(Level(4)));
    assert_eq!(rt; choose_level(&mut Top, &table, work(99, 7)), None);
    Ok(())
}

#[test]
fn a_table_has_1_to_16_levels(rt: HostRuntime) -> Result<(), Fail> {
    let rates = [
        1, 2, 3, 4, 5, 6, 7, 8, 9, 10, 11, 12, 13, 14, 15, 4095, 4096,
    ];
    assert_eq!(rt; refusal(&[]), Some(TableRefusal::WrongLevelCount(0)));
    assert_eq!(rt; refusal(&rates), Some(TableRefusal::WrongLevelCount(17)));
    let table = RateTable::new(&rates[0..16])?;
    assert_eq!(rt; table.levels(), 16);
    assert_eq!(rt; table.top_rate(), 4095);
    assert_eq!(rt; table.rate(Level(1)), Some(1));
    assert_eq!(rt; table.rate(Level(0)), None);
    assert_eq!(rt; table.rate(Level(17)), None);
    Ok(())
}

#[test]
fn the_first_wrong_rate_is_named(rt: HostRuntime) {
    assert_eq!(rt; refusal(&[0, 5]), Some(TableRefusal::WrongRateAt(0)));
    assert_eq!(rt; refusal(&[1, 4095]), None);
    assert_eq!(rt; refusal(&[1, 4096, 2]), Some(TableRefusal::WrongRateAt(1)));
    assert_eq!(rt; refusal(&[3, 5, 5]), Some(TableRefusal::WrongRateAt(2)));
    assert_eq!(rt; refusal(&[3, 5, 4, 4]), Some(TableRefusal::WrongRateAt(2)));
}

#[test]
fn a_floor_raises_the_answer_as_far_as_the_table_goes(rt: HostRuntime) -> Result<(), Fail> {
    let table = worked_table()?;
    assert_eq!(rt;
        choose_level(&mut Floor::new(Level(2), Least), &table, work(1, 7)),
        Some(Level(2))
    );
    assert_eq!(rt;
        choose_level(&mut Floor::new(Level(2), Least), &table, work(84, 7)),
        Some(Level(3))
    );
    assert_eq!(rt;
        choose_level(&mut Floor::new(Level(9), Least), &table, work(1, 7)),
        Some(Level(4))
    );
    assert_eq!(rt;
        choose_level(&mut Floor::new(Level(9), Least), &table, work(99, 7)),
        None
    );
    assert_eq!(rt;
        twice_floored_least(Level(2), Level(3), &table, work(1, 7)),
        Some(Level(3))
    );
    assert_eq!(rt;
        twice_floored_least(Level(0), Level(0), &table, work(1, 7)),
        Some(Level(1))
    );
    Ok(())
}

#[test]
fn refusals_have_a_number_and_a_value(rt: HostRuntime) {
    assert_eq!(rt; TableRefusal::WrongLevelCount(17).number(), 1);
    assert_eq!(rt; TableRefusal::WrongRateAt(3).number(), 2);
    assert_eq!(rt; TableRefusal::WrongRateAt(3).value(), 3);
}
