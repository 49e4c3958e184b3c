// An instruction that was looked at before it is carried out.
use hart_exec::{Effect, Operation};
use rvc_encoding::Encoding;

/// The instruction at a board's pc with its bits, and what it asks for there.
#[derive(Clone, Copy, Drop)]
pub struct Prepared {
    pub operation: Operation,
    pub encoding: Encoding,
    pub effect: Effect,
}
