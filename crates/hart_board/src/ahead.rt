// The next event of a run.

/// The place of the first event that isn't past, and its count: the greatest where there is none.
#[derive(Clone, Copy, Drop)]
pub struct Ahead {
    pub first: usize,
    pub count: u64,
}
