// The bits of a half-word that hold a field.
ghost use Rattle.std.specs.Prelude.{◌≡◌, ◌+◌, ◌-◌, ◌*◌, ◌^◌, ◌<◌, ◌≤◌};
ghost use Rattle.rvc_encoding.specs.Fields.{immediate_bits, number, amount, stack_sum, word_offset, jump, branch, stack_change, upper, stack_load, stack_store};

use hart_words::field;

pub(crate) fn full_bits(number: u8, low: u32) -> u32
    requires number { number < 32 }
    requires low { low ≤ 7 }
    ensures bits { result ≡ number * 2 ^ low }
    ensures small { result < 0x1000 }
{
    u32::from(number) << low
}

pub(crate) fn short_bits(number: u8, low: u32) -> u32
    requires number { 8 ≤ number }
    requires short { number < 16 }
    requires low { low ≤ 7 }
    ensures bits { result ≡ (number - 8) * 2 ^ low }
    ensures small { result < 0x1000 }
{
    u32::from(number - 8) << low
}

pub(crate) fn number_bits(imm: u32) -> u32
    ensures bits { result ≡ immediate_bits number imm }
    ensures small { result < 0x2000 }
{
    field(imm, 5, 1) * 0x1000 + field(imm, 0, 5) * 4
}

pub(crate) fn amount_bits(imm: u32) -> u32
    ensures bits { result ≡ immediate_bits amount imm }
    ensures small { result < 0x2000 }
{
    field(imm, 0, 5) * 4
}

pub(crate) fn stack_sum_bits(imm: u32) -> u32
    ensures bits { result ≡ immediate_bits stack_sum imm }
    ensures small { result < 0x2000 }
{
    let high = field(imm, 6, 4) * 0x80 + field(imm, 4, 2) * 0x800;
    high + field(imm, 3, 1) * 0x20 + field(imm, 2, 1) * 0x40
}

pub(crate) fn word_offset_bits(imm: u32) -> u32
    ensures bits { result ≡ immediate_bits word_offset imm }
    ensures small { result < 0x2000 }
{
    field(imm, 6, 1) * 0x20 + field(imm, 3, 3) * 0x400 + field(imm, 2, 1) * 0x40
}

pub(crate) fn jump_bits(imm: u32) -> u32
    ensures bits { result ≡ immediate_bits jump imm }
    ensures small { result < 0x2000 }
{
    let high = field(imm, 11, 1) * 0x1000 + field(imm, 10, 1) * 0x100 + field(imm, 8, 2) * 0x200;
    let middle = field(imm, 7, 1) * 0x40 + field(imm, 6, 1) * 0x80 + field(imm, 5, 1) * 4;
    high + middle + field(imm, 4, 1) * 0x800 + field(imm, 1, 3) * 8
}

pub(crate) fn branch_bits(imm: u32) -> u32
    ensures bits { result ≡ immediate_bits branch imm }
    ensures small { result < 0x2000 }
{
    let high = field(imm, 8, 1) * 0x1000 + field(imm, 6, 2) * 0x20 + field(imm, 5, 1) * 4;
    high + field(imm, 3, 2) * 0x400 + field(imm, 1, 2) * 8
}

pub(crate) fn stack_change_bits(imm: u32) -> u32
    ensures bits { result ≡ immediate_bits stack_change imm }
    ensures small { result < 0x2000 }
{
    let high = field(imm, 9, 1) * 0x1000 + field(imm, 7, 2) * 8 + field(imm, 6, 1) * 0x20;
    high + field(imm, 5, 1) * 4 + field(imm, 4, 1) * 0x40
}

pub(crate) fn upper_bits(imm: u32) -> u32
    ensures bits { result ≡ immediate_bits upper imm }
    ensures small { result < 0x2000 }
{
    field(imm, 17, 1) * 0x1000 + field(imm, 12, 5) * 4
}

pub(crate) fn stack_load_bits(imm: u32) -> u32
    ensures bits { result ≡ immediate_bits stack_load imm }
    ensures small { result < 0x2000 }
{
    field(imm, 6, 2) * 4 + field(imm, 5, 1) * 0x1000 + field(imm, 2, 3) * 0x10
}

pub(crate) fn stack_store_bits(imm: u32) -> u32
    ensures bits { result ≡ immediate_bits stack_store imm }
    ensures small { result < 0x2000 }
{
    field(imm, 6, 2) * 0x80 + field(imm, 2, 4) * 0x200
}
