// The outcome of a chain, by the text that it writes.
ghost use Rattle.std.specs.Prelude.{◌≡◌, ◌++◌, ◌≤◌, map, length, take, OnOk, IfOk};
ghost use Rattle.lab_sweep.specs.Outcome.{with_colon, word_by, word_of, is_end, last_space, timeless, outcome};

use hart_words::{WantOfMemory, cut_line};
use std::alloc::Global;

// Adds numbers, parted by colons.
fn push_numbers(words: &mut Vec<u8>, numbers: &[u8]) -> Result<(), WantOfMemory>
    ensures { OnOk result (words.new.items ≡ words.old.items ++ map with_colon numbers.now) }
{
    for byte in numbers {
        words.push(if *byte == b' ' { b':' } else { *byte })?;
    }
    Ok(())
}

// Adds the word of a service of this mark.
fn push_by(words: &mut Vec<u8>, mark: u8, numbers: &[u8]) -> Result<(), WantOfMemory>
    ensures { OnOk result (words.new.items ≡ words.old.items ++ word_by mark numbers.now) }
{
    if mark == b's' {
        words.extend_from_slice(b" ")?;
        push_numbers(words, numbers)
    } else if mark == b'd' {
        words.extend_from_slice(b" d")?;
        push_numbers(words, numbers)
    } else {
        Ok(())
    }
}

// Adds the word of a line.
fn push_word(words: &mut Vec<u8>, line: &[u8]) -> Result<(), WantOfMemory>
    ensures { OnOk result (words.new.items ≡ words.old.items ++ word_of line.now) }
{
    match line {
        [mark, _, numbers @ ..] => push_by(words, *mark, numbers),
        _ => Ok(()),
    }
}

fn is_end(line: &[u8]) -> bool
    ensures { result ≡ is_end line.now }
{
    line.starts_with(b"e")
}

fn last_space(line: &[u8]) -> usize
    ensures is { result ≡ last_space 0 0 line.now }
    ensures inside { result ≤ length line.now }
{
    let mut last = 0;
    for at in 0..line.len() {
        if line[at] == b' ' {
            last = at;
        }
    }
    last
}

// The end without the count of bodies.
fn timeless(line: &[u8]) -> &[u8]
    ensures { result.now ≡ timeless line.now }
{
    if line.starts_with(b"end broken ") {
        &line[..last_space(line)]
    } else {
        line
    }
}

// The end, and the words behind it.
fn ended(alloc: Global, line: &[u8], words: &[u8]) -> Result<Vec<u8>, WantOfMemory>
    ensures { IfOk result (λ all. all.items ≡ timeless line.now ++ words.now) }
{
    let mut all = Vec::from_slice(alloc, timeless(line))?;
    all.extend_from_slice(words)?;
    Ok(all)
}

/// How the chain that wrote this text ended, and its services.
#[tactic(auto, unfolding(crate::specs::Outcome::outcome))]
pub fn outcome_of(alloc: Global, text: &[u8]) -> Result<Vec<u8>, WantOfMemory>
    ensures { IfOk result (λ found. found.items ≡ outcome text.now) }
{
    let mut words = Vec::new(alloc);
    let mut rest = Some(text);
    while let Some(text) = rest {
        let (line, after) = cut_line(text);
        if is_end(line) {
            return ended(alloc, line, &words);
        }
        push_word(&mut words, line)?;
        rest = after;
    }
    Ok(words)
}
