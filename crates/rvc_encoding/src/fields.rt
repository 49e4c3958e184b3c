// The fields of a half-word.
ghost use Rattle.std.specs.Prelude.{◌≡◌, ◌+◌, ◌≤◌};
ghost use Rattle.hart_words.specs.Bits.{bits};
ghost use Rattle.rvc_encoding.specs.Fields.{immediate_in, number, stack_sum, word_offset, jump, branch, stack_change, upper, stack_load, stack_store};

use hart_words::{field, sign};

// A register's number of five bits.
pub(crate) fn full(h: u32, low: u32) -> u8
    requires { low + 5 ≤ 32 }
    ensures { result ≡ bits h low 5 }
{
    field(h, low, 5) as u8
}

// A register's number of three bits, which is x8 to x15.
pub(crate) fn short(h: u32, low: u32) -> u8
    requires { low + 3 ≤ 32 }
    ensures { result ≡ 8 + bits h low 3 }
{
    8 + field(h, low, 3) as u8
}

pub(crate) fn number(h: u32) -> u32
    ensures { result ≡ immediate_in number h }
{
    sign(field(h, 12, 1) * 32 + field(h, 2, 5), 6)
}

pub(crate) fn stack_sum(h: u32) -> u32
    ensures { result ≡ immediate_in stack_sum h }
{
    field(h, 7, 4) * 64 + field(h, 11, 2) * 16 + field(h, 5, 1) * 8 + field(h, 6, 1) * 4
}

pub(crate) fn word_offset(h: u32) -> u32
    ensures { result ≡ immediate_in word_offset h }
{
    field(h, 5, 1) * 64 + field(h, 10, 3) * 8 + field(h, 6, 1) * 4
}

pub(crate) fn jump(h: u32) -> u32
    ensures { result ≡ immediate_in jump h }
{
    let high = field(h, 12, 1) * 2048 + field(h, 8, 1) * 1024 + field(h, 9, 2) * 256;
    let middle = field(h, 6, 1) * 128 + field(h, 7, 1) * 64 + field(h, 2, 1) * 32;
    sign(
        high + middle + field(h, 11, 1) * 16 + field(h, 3, 3) * 2,
        12,
    )
}

pub(crate) fn branch(h: u32) -> u32
    ensures { result ≡ immediate_in branch h }
{
    let high = field(h, 12, 1) * 256 + field(h, 5, 2) * 64 + field(h, 2, 1) * 32;
    sign(high + field(h, 10, 2) * 8 + field(h, 3, 2) * 2, 9)
}

pub(crate) fn stack_change(h: u32) -> u32
    ensures { result ≡ immediate_in stack_change h }
{
    let high = field(h, 12, 1) * 512 + field(h, 3, 2) * 128 + field(h, 5, 1) * 64;
    sign(high + field(h, 2, 1) * 32 + field(h, 6, 1) * 16, 10)
}

pub(crate) fn upper(h: u32) -> u32
    ensures { result ≡ immediate_in upper h }
{
    sign(field(h, 12, 1) * 0x2_0000 + field(h, 2, 5) * 0x1000, 18)
}

pub(crate) fn stack_load(h: u32) -> u32
    ensures { result ≡ immediate_in stack_load h }
{
    field(h, 2, 2) * 64 + field(h, 12, 1) * 32 + field(h, 4, 3) * 4
}

pub(crate) fn stack_store(h: u32) -> u32
    ensures { result ≡ immediate_in stack_store h }
{
    field(h, 7, 2) * 64 + field(h, 9, 4) * 4
}
