// Frames around data.
ghost use Rattle.std.specs.Prelude.{◌≡◌, ◌++◌, OnOk};
ghost use Rattle.lab_packets.specs.Frames.{checksum, is_sum, framed};

use crate::digits::{byte_of, put_byte};
use hart_words::{Text, WantOfMemory};

/// The sum of bytes modulo 256.
#[tactic(auto, unfolding(crate::specs::Frames::checksum))]
pub(crate) fn checksum(bytes: &[u8]) -> u8
    ensures { result ≡ checksum bytes.now }
{
    let mut sum = 0u8;
    for byte in bytes {
        sum = sum.wrapping_add(*byte);
    }
    sum
}

/// Whether two bytes are the digits of the data's sum.
pub(crate) fn is_sum(bytes: &[u8], first: u8, second: u8) -> bool
    ensures { result ≡ is_sum bytes.now first second }
{
    match byte_of(first, second) {
        Some(sum) => sum == checksum(bytes),
        None => false,
    }
}

/// Adds a frame around data.
#[tactic(auto, unfolding(crate::specs::Frames::framed))]
pub fn put_frame(text: &mut Text, bytes: &[u8]) -> Result<(), WantOfMemory>
    ensures { OnOk result (text.new ≡ text.old ++ framed bytes.now) }
{
    text.push_bytes(b"$")?;
    text.push_bytes(bytes)?;
    text.push_bytes(b"#")?;
    put_byte(text, checksum(bytes))
}
