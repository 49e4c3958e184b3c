// A word that tells inputs and their levels.
ghost use Rattle.std.specs.Prelude.{◌≡◌, ◌≤◌, IfOk, IfSome};
ghost use Rattle.hart_words.specs.Cuts.{cut};
ghost use Rattle.board_inputs.specs.Numbers.{is_plain, number_upto, value_upto};
ghost use Rattle.chain_lint.specs.Pairs.{pair_of, pair_with, pairs_of};

use crate::pair::Pair;
use crate::pairs::Pairs;
use hart_words::{WantOfMemory, cut_at};
use std::alloc::Global;

// The most pairs in a word.
const MAX_PAIRS: u32 = 1024;

// The greatest input, and the greatest level.
const MAX_INPUT: u16 = 1023;

const MAX_LEVEL: u16 = 255;

// The value of digits, where it is at most so great.
#[tactic(auto, unfolding(board_inputs::specs::Numbers::value_upto))]
fn value_of(text: &[u8], most: u16) -> Option<u16>
    ensures value { result ≡ value_upto most text.now }
    ensures small { IfSome result (λ n. n ≤ most) }
{
    let mut value = 0u32;
    for digit in text {
        if !digit.is_ascii_digit() {
            return None;
        }
        value = value * 10 + u32::from(*digit - b'0');
        if value > u32::from(most) {
            return None;
        }
    }
    Some(value as u16)
}

// One byte or more, and the first of several isn't 0.
fn is_plain(text: &[u8]) -> bool
    ensures { result ≡ is_plain text.now }
{
    text.len() == 1 || !text.is_empty() && text[0] != b'0'
}

// The number that a text spells, where it is at most so great.
#[tactic(auto, unfolding(board_inputs::specs::Numbers::number_upto))]
fn number(text: &[u8], most: u16) -> Option<u16>
    ensures number { result ≡ number_upto most text.now }
    ensures small { IfSome result (λ n. n ≤ most) }
{
    if is_plain(text) {
        value_of(text, most)
    } else {
        None
    }
}

// The pair of two numbers.
fn pair_with(input: u16, level: u16) -> Option<Pair>
    requires { level ≤ 255 }
    ensures pair { result ≡ pair_with input level }
    ensures some { IfSome result (λ p. 1 ≤ p.level) }
{
    if level == 0 {
        return None;
    }
    Some(Pair {
        input,
        level: level as u8,
    })
}

// The pair that a text spells.
#[tactic(auto, unfolding(crate::specs::Pairs::pair_of))]
fn pair_in(text: &[u8]) -> Option<Pair>
    ensures pair { result ≡ pair_of text.now }
    ensures some { IfSome result (λ p. 1 ≤ p.level) }
{
    match cut_at(text, b':') {
        (_, None) => None,
        (input, Some(level)) => match (number(input, MAX_INPUT), number(level, MAX_LEVEL)) {
            (Some(input), Some(level)) => pair_with(input, level),
            _ => None,
        },
    }
}

/// The pairs that a word spells: an input, a colon and a level, with a comma between two.
#[tactic(auto, unfolding(crate::specs::Pairs::pairs_of))]
pub fn read_pairs(alloc: Global, word: &str) -> Result<Option<Pairs>, WantOfMemory>
    ensures { IfOk result (λ pairs. pairs ≡ pairs_of word.now) }
{
    let mut pairs = Pairs::new(alloc);
    let mut rest = word.as_bytes();
    for _ in 0..MAX_PAIRS {
        let (first, after) = cut_at(rest, b',');
        let Some(pair) = pair_in(first) else {
            return Ok(None);
        };
        pairs.push(pair)?;
        match after {
            Some(text) => rest = text,
            None => return Ok(Some(pairs)),
        }
    }
    Ok(None)
}
