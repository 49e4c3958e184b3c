// Where to stop by a count.

/// Where to stop by a count: nowhere, at so many steps, or behind the step with which the count of
/// events came to so much.
#[derive(Clone, Copy, Debug, PartialEq, Eq, Drop)]
pub enum Until {
    Never,
    Steps(u64),
    Count(u64),
}
