// Why a file wasn't passed.
use hart_words::Line;

/// Why a file wasn't passed.
#[derive(Drop)]
pub enum Stop {
    Memory,
    /// It is refused, with this line.
    Refused(Line),
}
