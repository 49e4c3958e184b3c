// A word that tells a part of many.
ghost use Rattle.std.specs.Prelude.{◌≡◌, option_map};
ghost use Rattle.lab_words.specs.Parts.{part_from, part_of, part_or_all};

use crate::part::Part;
use board_inputs::number;
use hart_words::cut_at;

// The most parts.
const MOST: u32 = 1_000_000;

// The part of these numbers, where there is one.
fn part_from(number: Option<u32>, parts: Option<u32>) -> Option<Part>
    ensures { result ≡ part_from number parts }
{
    match (number, parts) {
        (Some(number), Some(parts)) if number < parts => Some(Part { number, parts }),
        _ => None,
    }
}

// The part that a text spells: its number, a slash, and of how many.
#[tactic(auto, unfolding(crate::specs::Parts::part_of))]
fn part_in(text: &[u8]) -> Option<Part>
    ensures { result ≡ part_of text.now }
{
    match cut_at(text, b'/') {
        (_, None) => None,
        (first, Some(rest)) => part_from(number(first, MOST), number(rest, MOST)),
    }
}

/// The part that a word spells, or all where there is none.
pub fn read_part(word: Option<&str>) -> Option<Part>
    ensures { result ≡ part_or_all (option_map (λ s. s.now) word.entry) }
{
    match word {
        Some(word) => part_in(word.as_bytes()),
        None => Some(Part {
            number: 0,
            parts: 1,
        }),
    }
}
