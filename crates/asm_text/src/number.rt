// Numbers as they are written.
ghost use Rattle.std.specs.Prelude.{◌≡◌, ◌<◌, ◌≤◌, ◌^◌, IfSome};
ghost use Rattle.std.specs.Char.{digit_value};
ghost use Rattle.asm_text.specs.Numbers.{digits_in, magnitude, number_of};

// The first magnitude that isn't taken.
const MAGNITUDE_END: u64 = 0x1_0000_0000;

// The value of a digit, a letter counting from 10 on, and 36 where the byte is none.
#[tactic(auto, using(std::proofs::lemmas::Bool::Decides::nat_tests))]
fn digit_value(byte: u8) -> u64
    ensures value { result ≡ digit_value byte }
    ensures small { result ≤ 36 }
{
    match byte {
        b'0'..=b'9' => u64::from(byte - b'0'),
        b'A'..=b'Z' => u64::from(byte - b'A') + 10,
        b'a'..=b'z' => u64::from(byte - b'a') + 10,
        _ => 36,
    }
}

#[tactic(auto, using(crate::proofs::Digits::digit_steps), unfolding(crate::specs::Numbers::digits_in))]
fn digits_in(base: u64, digits: &[u8]) -> Option<u64>
    requires low { 2 ≤ base }
    requires high { base ≤ 36 }
    ensures value { result ≡ digits_in base digits.now }
    ensures small { IfSome result (λ n. n < 2 ^ 32) }
{
    if digits.is_empty() {
        return None;
    }
    let mut value = 0;
    for c in digits {
        let digit = digit_value(*c);
        if digit >= base {
            return None;
        }
        value = value * base + digit;
        if value >= MAGNITUDE_END {
            return None;
        }
    }
    Some(value)
}

#[tactic(auto, using(std::proofs::lemmas::Bool::Decides::nat_tests), unfolding(crate::specs::Numbers::magnitude))]
fn magnitude(text: &[u8]) -> Option<u64>
    ensures value { result ≡ magnitude text.now }
    ensures small { IfSome result (λ n. n < 2 ^ 32) }
{
    if text.len() >= 2 && text[0] == b'0' && text[1] == b'x' {
        digits_in(16, &text[2..])
    } else {
        digits_in(10, text)
    }
}

/// The number that the text writes.
#[tactic(auto, using(std::proofs::lemmas::Bool::Decides::nat_tests), unfolding(crate::specs::Numbers::number_of))]
pub fn number_of(text: &[u8]) -> Option<i64>
    ensures { result ≡ number_of text.now }
{
    if !text.is_empty() && text[0] == b'-' {
        match magnitude(&text[1..]) {
            Some(n) => Some(-(n as i64)),
            None => None,
        }
    } else {
        match magnitude(text) {
            Some(n) => Some(n as i64),
            None => None,
        }
    }
}
