//! The speeds that the box can run at, and the policies that pick one. A [`RateTable`] lists the rates, one a
//! level; a [`Policy`] answers with a level that is fast enough for the work that remains.
#![tactic(auto)]

mod floor;
mod least;
mod level;
mod policy;
mod refusal;
mod table;
#[cfg(test)]
mod tests;
mod top;
mod work;

pub use floor::{Floor, twice_floored_least};
pub use least::{Least, least_examples, least_level};
pub use level::Level;
pub use policy::{Policy, choose_level};
pub use refusal::TableRefusal;
pub use table::RateTable;
pub use top::Top;
pub use work::Work;
