//! What a renderer answers when it has played a job for one tick.

/// How a job stands after a tick.
#[derive(Clone, Copy, PartialEq, Eq, Debug)]
pub enum Answer {
    /// There is more of it to play.
    Running,
    Finished,
    /// It broke off, with a code that the renderer chose.
    Failed(u16),
}
