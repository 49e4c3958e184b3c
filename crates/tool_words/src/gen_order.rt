// A number of pulses that words ask for.

/// A number that words ask to make an image and events of.
#[derive(Drop)]
pub struct GenOrder {
    /// How many pulses come to the board.
    pub number: u16,
}
