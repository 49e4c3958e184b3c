// What a byte tells.

/// What is known with a byte.
#[derive(Clone, Copy, Debug, PartialEq, Eq, Drop)]
pub enum Heard {
    Nothing,
    /// The last packets are asked for again.
    Again,
    /// A frame ended whose sum is another, or is none, or that was too long.
    Bad,
    /// A packet ended: its data is what the reader holds.
    Packet,
}
