// What is told while a sweep is at work.

/// Who is told how far a sweep has come.
pub trait Progress {
    /// So many counts are done, of as many as there are.
    fn tell(&mut self, done: u64, all: u64);
}
