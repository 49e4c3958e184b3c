// The boards of chains, for a caller to look at.
ghost use Rattle.std.specs.Prelude.{◌≡◌, Some};
ghost use Rattle.tool_work.specs.Bench.{empty_bench};

use board_devices::AllDevices;
use hart_board::Board;

/// The boards that `chain` or `gen` ran, where they ended, so that a caller can look at them.
#[derive(Drop)]
pub struct Bench {
    pub first: Option<Board<AllDevices>>,
    pub second: Option<Board<AllDevices>>,
}

impl Bench {
    /// No board.
    pub fn new() -> Bench
        ensures { result ≡ empty_bench }
    {
        Bench {
            first: None,
            second: None,
        }
    }
}
