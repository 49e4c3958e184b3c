// Words of 32 bits, the registers, buffers of text, and texts that are cut into lines.
#![tactic(auto)]

ghost use Rattle.std.specs.Prelude.{◌≡◌, ◌+◌, ◌≤◌};

mod cuts;
mod line;
mod lines;
mod registers;
#[cfg(test)]
mod tests;
mod text;
mod want_of_memory;
mod words;

pub use cuts::cut_at;
pub use line::{LINE_LEN, Line};
pub use lines::cut_line;
pub use registers::Regs;
pub use text::Text;
pub use want_of_memory::WantOfMemory;
pub use words::{even, field, sign, signed, wrap};
