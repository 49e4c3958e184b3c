// How often an outcome came.

/// How many counts gave an outcome, and the first of them.
#[derive(Clone, Copy, Debug, PartialEq, Eq, Drop)]
pub struct Tally {
    pub counts: u64,
    pub first: u64,
}
