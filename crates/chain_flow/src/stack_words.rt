// Lists of stack words.
ghost use Rattle.std.specs.Prelude.{◌≡◌, length};
ghost use Rattle.chain_flow.specs.Flow.{found, without, words_above, is_pair, joined_words, IsPlace};

use crate::stack_word::StackWord;
use crate::value::{Value, depth_of};

/// The value of the first word at an offset.
#[tactic(auto, unfolding(crate::specs::Flow::found))]
pub fn find(words: &[StackWord], offset: u32) -> Option<Value>
    ensures { result ≡ found offset words.now }
{
    for word in words {
        if word.offset == offset {
            return Some(word.value);
        }
    }
    None
}

/// Forgets the words at an offset.
#[tactic(auto, unfolding(crate::specs::Flow::without))]
pub fn forget(words: &mut Vec<StackWord>, offset: u32)
    ensures { words.new.items ≡ without offset words.old.items }
{
    words.retain(|word| word.offset != offset);
}

/// Forgets the words below a stack pointer.
#[tactic(auto, unfolding(crate::specs::Flow::words_above))]
pub fn keep_above(words: &mut Vec<StackWord>, sp: u32)
    ensures { words.new.items ≡ words_above sp words.old.items }
{
    words.retain(|word| depth_of(word.offset) <= sp);
}

// Both are the same.
fn is_same_word(word: &StackWord, other: &StackWord) -> bool
    ensures { result ≡ is_pair word.now other.now }
{
    word.offset == other.offset && word.value.says_as(other.value)
}

// A place where the word stands among others. It is sought at one place first.
fn place_in(word: &StackWord, others: &[StackWord], near: usize) -> Option<usize>
    ensures { IsPlace word.now others.now result }
{
    if near < others.len() && is_same_word(&others[near], word) {
        return Some(near);
    }
    for i in 0..others.len() {
        if is_same_word(&others[i], word) {
            return Some(i);
        }
    }
    None
}

/// Keeps the words that stand among others. Words mostly stand in the same order, so each is sought
/// behind the last one first.
pub fn join(words: &mut Vec<StackWord>, others: &[StackWord])
    ensures { words.new.items ≡ joined_words words.old.items others.now }
{
    let mut kept = 0;
    let mut near = 0;
    for i in 0..words.len() {
        let word = words[i];
        if let Some(place) = place_in(&word, others, near) {
            words[kept] = word;
            kept += 1;
            near = place + 1;
        }
    }
    words.truncate(kept);
}
