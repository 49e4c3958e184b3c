// A board before its chain.
use board_devices::AllDevices;
use chain_moves::Watch;
use hart_board::Board;

/// A board before its chain, and what the chain keeps beside it.
#[derive(Drop)]
pub struct Prepared {
    pub board: Board<AllDevices>,
    pub watch: Watch,
}
