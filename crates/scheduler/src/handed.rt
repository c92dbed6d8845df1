//! What a job that is over hands on.

/// The bound and the deadline of the job that ended last, 0 and 0 before the first: a bound that has passed changes nothing.
#[derive(Clone, Copy)]
pub(crate) struct Handed {
    pub(crate) bound: u32,
    pub(crate) deadline: u32,
}
