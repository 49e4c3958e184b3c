// What a load puts into its register.
ghost use Rattle.std.specs.Prelude.{◌≡◌, ◌<◌, ◌^◌, ◌*◌};
ghost use Rattle.hart_exec.specs.Access.{IsWidth, extended};

use hart_words::sign;

/// What a load of that width puts into its register, for the value of the bytes that it read.
#[inline]
pub fn extend(value: u32, width: u32, signed: bool) -> u32
    requires width { IsWidth width }
    requires value { value < 2 ^ (8 * width) }
    ensures { result ≡ extended value width signed }
{
    if signed {
        sign(value, 8 * width)
    } else {
        value
    }
}
