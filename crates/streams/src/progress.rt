//! What is told how far a command is.

/// What is told how far a command is, to show it or not. Nothing is promised.
pub trait Progress {
    /// So many bytes of the whole are done.
    fn at(&mut self, done: u64, whole: u64);

    /// Takes away what is shown: the work is done, or something else is to be written.
    fn wipe(&mut self);

    /// From now on nothing is shown.
    fn silence(&mut self);
}

/// Shows nothing.
#[derive(Clone, Copy)]
pub struct Silent;

impl Progress for Silent {
    fn at(&mut self, _done: u64, _whole: u64) {}

    fn wipe(&mut self) {}

    fn silence(&mut self) {}
}
