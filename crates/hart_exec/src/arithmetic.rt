// Operations on two words.
ghost use Rattle.std.specs.Prelude.{◌≡◌, pos, ◌*ℤ◌};
ghost use Rattle.hart_words.specs.TwosComplement.{signed_value};
ghost use Rattle.hart_exec.specs.Arithmetic.{register_result, high_word, quotient, remainder, unsigned_quotient, unsigned_remainder};
ghost use Rattle.rv_encoding.specs.declared.operations.RegOp.TheVariants.{Slt, Sra};

use hart_words::{signed, wrap};

#[inline]
pub(crate) fn upper_signed(x: u32, y: u32) -> u32
    ensures { result ≡ high_word (signed_value x *ℤ signed_value y) }
{
    wrap((signed(x) * signed(y)) >> 32)
}

#[inline]
pub(crate) fn upper_mixed(x: u32, y: u32) -> u32
    ensures { result ≡ high_word (signed_value x *ℤ pos y) }
{
    wrap((signed(x) * i64::from(y)) >> 32)
}

#[inline]
pub(crate) fn upper_unsigned(x: u32, y: u32) -> u32
    ensures { result ≡ high_word (pos x *ℤ pos y) }
{
    ((u64::from(x) * u64::from(y)) >> 32) as u32
}

#[inline]
pub(crate) fn divided(x: u32, y: u32) -> u32
    ensures { result ≡ quotient x y }
{
    if y == 0 {
        u32::MAX
    } else {
        wrap(signed(x) / signed(y))
    }
}

#[inline]
pub(crate) fn left_over(x: u32, y: u32) -> u32
    ensures { result ≡ remainder x y }
{
    if y == 0 {
        x
    } else {
        wrap(signed(x) % signed(y))
    }
}

#[inline]
pub(crate) fn divided_unsigned(x: u32, y: u32) -> u32
    ensures { result ≡ unsigned_quotient x y }
{
    if y == 0 { u32::MAX } else { x / y }
}

#[inline]
pub(crate) fn left_over_unsigned(x: u32, y: u32) -> u32
    ensures { result ≡ unsigned_remainder x y }
{
    if y == 0 { x } else { x % y }
}

// 1 where the first integer is less than the second, else 0.
#[inline]
pub(crate) fn less(x: u32, y: u32) -> u32
    ensures { result ≡ register_result Slt x y }
{
    u32::from(signed(x) < signed(y))
}

// A shift to the right that keeps the sign.
#[inline]
pub(crate) fn shifted(x: u32, y: u32) -> u32
    ensures { result ≡ register_result Sra x y }
{
    wrap(signed(x) >> (y % 32))
}
