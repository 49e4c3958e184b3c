// Numbers in decimal, without leading zeros.
ghost use Rattle.std.specs.Prelude.{◌≡◌, ◌≤◌, IfSome};
ghost use Rattle.board_inputs.specs.Numbers.{number_upto, value_upto};

// The value of digits, where it is at most so great.
#[tactic(auto, unfolding(crate::specs::Numbers::value_upto))]
fn value_of(text: &[u8], most: u32) -> Option<u32>
    ensures value { result ≡ value_upto most text.now }
    ensures small { IfSome result (λ n. n ≤ most) }
{
    let mut value = 0u64;
    for digit in text {
        if !digit.is_ascii_digit() {
            return None;
        }
        value = value * 10 + u64::from(*digit - b'0');
        if value > u64::from(most) {
            return None;
        }
    }
    Some(value as u32)
}

/// The number that a text spells in decimal without a leading zero, where it is at most so great.
#[tactic(auto, unfolding(crate::specs::Numbers::number_upto))]
pub fn number(text: &[u8], most: u32) -> Option<u32>
    ensures number { result ≡ number_upto most text.now }
    ensures small { IfSome result (λ n. n ≤ most) }
{
    if text.is_empty() {
        return None;
    }
    if text.len() > 1 && text[0] == b'0' {
        return None;
    }
    value_of(text, most)
}
