// A word that tells inputs, their levels, and how often each comes.
ghost use Rattle.std.specs.Prelude.{◌≡◌, ◌≤◌, IfOk, IfSome};
ghost use Rattle.hart_words.specs.Cuts.{cut};
ghost use Rattle.chain_time.specs.Triples.{triple_behind, triple_of, triple_with, triples_of};

use crate::triple::Triple;
use crate::triples::{MAX_TRIPLES, Triples};
use board_inputs::number;
use hart_words::{WantOfMemory, cut_at};
use std::alloc::Global;

// The greatest input, the greatest level, and how often an input comes at most.
const MAX_INPUT: u32 = 1023;

const MAX_LEVEL: u32 = 255;

const MAX_COUNT: u32 = 65_535;

// The triple of three numbers.
fn triple_with(input: u32, level: u32, count: u32) -> Option<Triple>
    requires input { input ≤ 1023 }
    requires level { level ≤ 255 }
    requires count { count ≤ 65535 }
    ensures triple { result ≡ triple_with input level count }
    ensures some { IfSome result (λ q. 1 ≤ q.level) }
{
    if level == 0 {
        return None;
    }
    if count == 0 {
        return None;
    }
    Some(Triple {
        input: input as u16,
        level: level as u8,
        count: count as u16,
    })
}

// The triple of an input and of what stands behind it.
fn triple_behind(input: &[u8], rest: &[u8]) -> Option<Triple>
    ensures triple { result ≡ triple_behind input.now (cut 58 rest.now) }
    ensures some { IfSome result (λ q. 1 ≤ q.level) }
{
    match cut_at(rest, b':') {
        (_, None) => None,
        (level, Some(count)) => match (
            number(input, MAX_INPUT),
            number(level, MAX_LEVEL),
            number(count, MAX_COUNT),
        ) {
            (Some(input), Some(level), Some(count)) => triple_with(input, level, count),
            _ => None,
        },
    }
}

// The triple that a text spells.
#[tactic(auto, unfolding(crate::specs::Triples::triple_of))]
fn triple_in(text: &[u8]) -> Option<Triple>
    ensures triple { result ≡ triple_of text.now }
    ensures some { IfSome result (λ q. 1 ≤ q.level) }
{
    match cut_at(text, b':') {
        (_, None) => None,
        (input, Some(rest)) => triple_behind(input, rest),
    }
}

/// The triples that a word spells: an input, its level and how often it comes, with a colon between two
/// numbers and a comma between two triples.
#[tactic(auto, unfolding(crate::specs::Triples::triples_of))]
pub fn read_triples(alloc: Global, word: &str) -> Result<Option<Triples>, WantOfMemory>
    ensures { IfOk result (λ triples. triples ≡ triples_of word.now) }
{
    let mut triples = Triples::new(alloc);
    let mut rest = word.as_bytes();
    for _ in 0..MAX_TRIPLES {
        let (first, after) = cut_at(rest, b',');
        let Some(triple) = triple_in(first) else {
            return Ok(None);
        };
        triples.push(triple)?;
        match after {
            Some(text) => rest = text,
            None => return Ok(Some(triples)),
        }
    }
    Ok(None)
}
