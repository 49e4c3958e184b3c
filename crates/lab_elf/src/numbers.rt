// Numbers in a file, the lowest byte first.
ghost use Rattle.std.specs.Prelude.{◌≡◌, ◌+◌, ◌≤◌, length};
ghost use Rattle.lab_elf.specs.Header.{half_at, word_at, is_inside};

use byteorder::{ByteOrder, LittleEndian};

// The number in the two bytes at a place.
#[tactic(auto, unfolding(crate::specs::Header::half_at))]
pub(crate) fn half_at(bytes: &[u8], place: u32) -> u16
    requires { place + 2 ≤ length bytes.now }
    ensures { result ≡ half_at place bytes.now }
{
    LittleEndian::read_u16(&bytes[place as usize..])
}

// The number in the four bytes at a place.
#[tactic(auto, unfolding(crate::specs::Header::word_at))]
pub(crate) fn word_at(bytes: &[u8], place: u32) -> u32
    requires { place + 4 ≤ length bytes.now }
    ensures { result ≡ word_at place bytes.now }
{
    LittleEndian::read_u32(&bytes[place as usize..])
}

// Whether so many bytes from an offset on are in the file.
pub(crate) fn is_inside(bytes: &[u8], offset: u32, size: u32) -> bool
    ensures { result ≡ is_inside offset size bytes.now }
{
    bytes.len() as u64 >= u64::from(offset) + u64::from(size)
}
