// The handlers in a table, by their certificates.
ghost use Rattle.std.specs.Prelude.{◌≡◌, ◌≤◌, IfOk, OnOk};
ghost use Rattle.std.specs.List.{All};
ghost use Rattle.chain_search.specs.Tables.{AreTold, IsLittle, WereCertified, IsAnswerBy, TellsMore};

use crate::accepted::{Accepted, uses_of};
use crate::certifying::certify_code;
use crate::pair_answer::PairAnswer;
use chain_flow::{Region, Verdict};
use chain_lint::{Pair, word_at};
use hart_memory::Banks;
use hart_words::{WantOfMemory, even};
use std::alloc::Global;

// What is told of the handler whose address is the word at a place.
fn answer_at(
    alloc: Global,
    code: &Banks,
    region: &Region,
    place: u32,
    accepted: &mut Vec<Accepted>,
) -> Result<PairAnswer, WantOfMemory>
    requires { WereCertified code.now.present.rom region.now accepted.old.items }
    ensures answer { IfOk result (λ answer. IsAnswerBy code.now.present.rom region.now accepted.new.items place answer) }
    ensures more { OnOk result (TellsMore accepted.old.items accepted.new.items) }
    ensures certified { OnOk result (WereCertified code.now.present.rom region.now accepted.new.items) }
{
    let Some(word) = word_at(code, place) else {
        return Ok(PairAnswer::BadTable(place));
    };
    let at = even(word);
    if let Some(uses) = uses_of(accepted, at) {
        return Ok(PairAnswer::Accepted(uses));
    }
    match certify_code(alloc, code, at, region)? {
        Verdict::Yes { uses } => {
            accepted.push(Accepted { at, uses })?;
            Ok(PairAnswer::Accepted(uses))
        }
        Verdict::No { why, at } => Ok(PairAnswer::Refused { why, at }),
    }
}

/// What is told of each of these inputs, whose handlers the table at an address of the code names. An address that
/// more of them name is sought once.
pub fn certify_table(
    alloc: Global,
    code: &Banks,
    region: &Region,
    table: u32,
    pairs: &[Pair],
) -> Result<Vec<PairAnswer>, WantOfMemory>
    requires table { table ≤ 0x1_0000 }
    ensures told { IfOk result (λ answers. AreTold code.now.present.rom region.now table pairs.now answers.items) }
    ensures little { IfOk result (λ answers. All IsLittle answers.items) }
{
    let mut answers = Vec::new(alloc);
    let mut accepted = Vec::new(alloc);
    for i in 0..pairs.len() {
        let place = table + 4 * u32::from(pairs[i].input);
        let answer = answer_at(alloc, code, region, place, &mut accepted)?;
        answers.push(answer)?;
    }
    Ok(answers)
}
