//! A level of a rate table.

/// The number of a level: 1 for the slowest of a table. Nothing ties it to one table, so a table may not have it.
#[derive(Clone, Copy, PartialEq, Eq, Debug)]
pub struct Level(pub u32);
