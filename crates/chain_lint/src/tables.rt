// The handlers in a table.
ghost use Rattle.std.specs.Prelude.{◌≡◌, ◌≤◌, ◌+◌, [], IfOk};
ghost use Rattle.std.specs.List.{All};
ghost use Rattle.hart_memory.specs.declared.address_map.TheConstants.{RAM_BASE, BANK_LEN};
ghost use Rattle.chain_lint.specs.Code.{image_rom};
ghost use Rattle.chain_lint.specs.Tables.{IsPair, IsWordAt, is_bad_word, table_bound};

use crate::accepted::judge;
use crate::bound::stack_bound;
use crate::code::memory_of;
use crate::pair::Pair;
use crate::table_bound::TableBound;
use crate::uses::Use;
use chain_flow::{Region, Verdict, meets_slot};
use hart_memory::laws::banks_are_whole;
use hart_memory::{BANK_LEN, Banks, Image};
use hart_words::{WantOfMemory, even};
use std::alloc::Global;

// Whether a word isn't wholly in ROM, or has a byte in the slot.
fn is_bad(at: u32) -> bool
    ensures { result ≡ is_bad_word at }
{
    u64::from(at) + 4 > u64::from(BANK_LEN) || meets_slot(at, 4)
}

/// The word at an address of the code. `None`: it isn't wholly in ROM, or has a byte in the slot.
pub fn word_at(code: &Banks, at: u32) -> Option<u32>
    ensures { IsWordAt code.now.present.rom at result }
{
    if is_bad(at) {
        return None;
    }
    banks_are_whole(code);
    Some(code.load(at, 4))
}

// The same of code that is there.
fn bound_in(
    alloc: Global,
    code: &Banks,
    region: &Region,
    table: u32,
    pairs: &[Pair],
) -> Result<TableBound, WantOfMemory>
    requires table { table ≤ 0x1_0000 }
    requires levels { All IsPair pairs.now }
    ensures { IfOk result (λ answer. answer ≡ table_bound code.now.present.rom region.now table pairs.now []) }
{
    let mut list = Vec::new(alloc);
    let mut accepted = Vec::new(alloc);
    for i in 0..pairs.len() {
        let Pair { input, level } = pairs[i];
        let at = table + 4 * u32::from(input);
        let Some(word) = word_at(code, at) else {
            return Ok(TableBound::BadTable(at));
        };
        match judge(alloc, code, region, even(word), &mut accepted)? {
            Verdict::Yes { uses } => list.push(Use { level, uses })?,
            Verdict::No { why, at } => return Ok(TableBound::Refused { why, at }),
        }
    }
    Ok(TableBound::Bound(stack_bound(&list)))
}

/// How far the handlers of these inputs, in the table at an address of the image, can grow the stack
/// together; or the first word or handler that is refused.
pub fn bound_of_table(
    alloc: Global,
    image: &Image,
    region: Region,
    table: u32,
    pairs: &[Pair],
) -> Result<TableBound, WantOfMemory>
    requires table { table ≤ 0x1_0000 }
    requires low { (RAM_BASE ≤ region.low) × (region.low ≤ RAM_BASE + BANK_LEN) }
    requires high { (RAM_BASE ≤ region.high) × (region.high ≤ RAM_BASE + BANK_LEN) }
    requires levels { All IsPair pairs.now }
    ensures { IfOk result (λ answer. answer ≡ table_bound (image_rom image.now) region table pairs.now []) }
{
    let code = memory_of(alloc, image)?;
    bound_in(alloc, &code, &region, table, pairs)
}
