// Numbers in a script.
ghost use Rattle.std.specs.Prelude.{◌≡◌, ◌≤◌, length, IfSome};
ghost use Rattle.asm_text.specs.Numbers.{digits_in, is_hexadecimal};
ghost use Rattle.board_inputs.specs.Numbers.{is_plain, number_upto};
ghost use Rattle.hart_monitor.specs.Numbers.{most_number, hexadecimal_upto_eight, number_of, number_in};

// "0x" and eight digits have this length.
const MAX_HEXADECIMAL: usize = 10;

// The number that digits in a base spell, where it is one of 32 bits.
#[tactic(auto, using(asm_text::proofs::Digits::digit_steps), unfolding(asm_text::specs::Numbers::digits_in))]
fn digits_in(base: u32, digits: &[u8]) -> Option<u32>
    requires low { 2 ≤ base }
    requires high { base ≤ 36 }
    ensures { result ≡ digits_in base digits.now }
{
    if digits.is_empty() {
        return None;
    }
    let mut value = 0u64;
    for byte in digits {
        let Some(digit) = char::from(*byte).to_digit(base) else {
            return None;
        };
        value = value * u64::from(base) + u64::from(digit);
        if value > u64::from(u32::MAX) {
            return None;
        }
    }
    Some(value as u32)
}

// "0x" stands first.
fn is_hexadecimal(text: &[u8]) -> bool
    ensures { result ≡ is_hexadecimal text.now }
{
    text.len() >= 2 && text[0] == b'0' && text[1] == b'x'
}

fn hexadecimal(text: &[u8]) -> Option<u32>
    requires { 2 ≤ length text.now }
    ensures { result ≡ hexadecimal_upto_eight text.now }
{
    if text.len() > MAX_HEXADECIMAL {
        return None;
    }
    digits_in(16, &text[2..])
}

// One byte or more, and the first of several isn't 0.
fn is_plain(text: &[u8]) -> bool
    ensures { result ≡ is_plain text.now }
{
    text.len() == 1 || !text.is_empty() && text[0] != b'0'
}

#[tactic(auto, unfolding(board_inputs::specs::Numbers::number_upto))]
fn decimal(text: &[u8]) -> Option<u32>
    ensures { result ≡ number_upto most_number text.now }
{
    if is_plain(text) {
        digits_in(10, text)
    } else {
        None
    }
}

// The number that a text spells.
#[tactic(auto, unfolding(crate::specs::Numbers::number_of))]
fn number_of(text: &[u8]) -> Option<u32>
    ensures { result ≡ number_of text.now }
{
    if is_hexadecimal(text) {
        hexadecimal(text)
    } else {
        decimal(text)
    }
}

/// The number that a text spells, where it is in the range.
#[tactic(auto, unfolding(crate::specs::Numbers::number_in))]
pub(crate) fn number(text: &[u8], least: u32, most: u32) -> Option<u32>
    ensures number { result ≡ number_in least most text.now }
    ensures least { IfSome result (λ n. least ≤ n) }
    ensures most { IfSome result (λ n. n ≤ most) }
{
    match number_of(text) {
        Some(n) => if least <= n && n <= most {
            Some(n)
        } else {
            None
        },
        None => None,
    }
}
