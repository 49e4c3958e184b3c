// The stack that the handlers in a table use together, by their certificates.
ghost use Rattle.std.specs.Prelude.{◌≡◌, IfOk};
ghost use Rattle.std.specs.List.{All};
ghost use Rattle.chain_lint.specs.Tables.{IsPair};
ghost use Rattle.chain_search.specs.Tables.{IsLittle, uses_told as uses_in, bound_told as bound_of};

use crate::pair_answer::PairAnswer;
use chain_lint::{Pair, Use, stack_bound};
use hart_words::WantOfMemory;
use std::alloc::Global;

// What a handler uses that is accepted.
fn uses_told(answer: PairAnswer) -> Option<u32>
    ensures { result ≡ uses_in answer }
{
    match answer {
        PairAnswer::Accepted(uses) => Some(uses),
        PairAnswer::BadTable(_) | PairAnswer::Refused { .. } => None,
    }
}

/// How far the handlers of these inputs can grow the stack together, where each is accepted.
pub fn bound_told(
    alloc: Global,
    pairs: &[Pair],
    answers: &[PairAnswer],
) -> Result<Option<u32>, WantOfMemory>
    requires levels { All IsPair pairs.now }
    requires little { All IsLittle answers.now }
    ensures { IfOk result (λ bytes. bytes ≡ bound_of pairs.now answers.now) }
{
    let mut list = Vec::new(alloc);
    for i in 0..pairs.len() {
        if i >= answers.len() {
            return Ok(None);
        }
        let Some(uses) = uses_told(answers[i]) else {
            return Ok(None);
        };
        let level = pairs[i].level;
        list.push(Use { level, uses })?;
    }
    Ok(Some(stack_bound(&list)))
}
