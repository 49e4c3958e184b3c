// Lists of stack words.
ghost use Rattle.std.specs.Prelude.{◌≡◌};
ghost use Rattle.chain_certify.specs.Flow.{found, without, words_above, words_below as words_below_of};

use crate::stack_word::StackWord;
use crate::value::Value;
use chain_flow::depth_of;

/// The value of the first word at an offset.
#[tactic(auto, unfolding(crate::specs::Flow::found))]
pub fn find(words: &[StackWord], offset: u32) -> Option<Value>
    ensures { result ≡ found offset words.now }
{
    for word in words {
        if word.offset == offset {
            return Some(word.value);
        }
    }
    None
}

/// Forgets the words at an offset.
#[tactic(auto, unfolding(crate::specs::Flow::without))]
pub fn forget(words: &mut Vec<StackWord>, offset: u32)
    ensures { words.new.items ≡ without offset words.old.items }
{
    words.retain(|word| word.offset != offset);
}

/// Forgets the words below a stack pointer.
#[tactic(auto, unfolding(crate::specs::Flow::words_above))]
pub fn keep_above(words: &mut Vec<StackWord>, sp: u32)
    ensures { words.new.items ≡ words_above sp words.old.items }
{
    words.retain(|word| depth_of(word.offset) <= sp);
}

// What is known of a word says at least as much.
fn is_found_below(words: &[StackWord], other: &StackWord) -> bool
    ensures { result ≡ Rattle.chain_certify.specs.Flow.is_found_below (found other.now.offset words.now) other.now.value }
{
    match find(words, other.offset) {
        Some(value) => value.is_below(other.value),
        None => false,
    }
}

/// What is known of each of the other words says at least as much.
#[tactic(auto, unfolding(crate::specs::Flow::words_below))]
pub fn words_below(words: &[StackWord], others: &[StackWord]) -> bool
    ensures { result ≡ words_below_of words.now others.now }
{
    for other in others {
        if !is_found_below(words, other) {
            return false;
        }
    }
    true
}
