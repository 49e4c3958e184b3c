// What a chain counts.
use hart_board::Ahead;

/// What is counted beside the board of a chain: the bodies so far, the calls less the returns, and the
/// services; and the next event.
#[derive(Clone, Copy, Drop)]
pub struct Course {
    pub bodies: u64,
    pub depth: u64,
    pub services: u64,
    pub ahead: Ahead,
}
