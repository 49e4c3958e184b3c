// Fields, signs and the two's complement.
ghost use Rattle.std.specs.Prelude.{◌≡◌, ◌+◌, ◌≤◌};
ghost use Rattle.hart_words.specs.Bits.{bits, even};
ghost use Rattle.hart_words.specs.Sign.{sign_extended};
ghost use Rattle.hart_words.specs.TwosComplement.{wrapped, signed_value};

/// The `count` bits of the word from bit `low` on, as a number.
#[inline]
pub fn field(word: u32, low: u32, count: u32) -> u32
    requires some { 1 ≤ count }
    requires inside { low + count ≤ 32 }
    ensures { result ≡ bits word low count }
{
    let shifted = word >> low;
    if count == 32 {
        shifted
    } else {
        shifted % (1 << count)
    }
}

/// The word with bit 0 cleared.
#[inline]
pub fn even(word: u32) -> u32
    ensures { result ≡ even word }
{
    word - word % 2
}

/// A number of `bits` bits in two's complement, extended to a word: bit `bits - 1` is its sign.
#[inline]
pub fn sign(value: u32, bits: u32) -> u32
    requires some { 1 ≤ bits }
    requires inside { bits ≤ 32 }
    ensures { result ≡ sign_extended value bits }
{
    if value < 1 << (bits - 1) {
        value
    } else if bits == 32 {
        value
    } else {
        value.wrapping_sub(1 << bits)
    }
}

/// The word in two's complement, from -2^31 to 2^31 - 1.
#[inline]
pub fn signed(word: u32) -> i64
    ensures { result ≡ signed_value word }
{
    if word < 0x8000_0000 {
        i64::from(word)
    } else {
        i64::from(word) - 0x1_0000_0000
    }
}

/// The value modulo 2^32.
#[inline]
pub fn wrap(value: i64) -> u32
    ensures { result ≡ wrapped value }
{
    value.rem_euclid(0x1_0000_0000) as u32
}
