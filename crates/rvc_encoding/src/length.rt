// The length of an instruction.
ghost use Rattle.std.specs.Prelude.{◌≡◌};
ghost use Rattle.rvc_encoding.specs.Halves.{length_of};

/// The length in bytes of the instruction that begins with the half-word: 4 where its two lowest bits are 11, else 2.
#[inline]
pub fn length_of(h: u16) -> u32
    ensures { result ≡ length_of h }
{
    if h % 4 == 3 { 4 } else { 2 }
}
