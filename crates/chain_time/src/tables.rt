// The times of the handlers in a table.
ghost use Rattle.std.specs.Prelude.{◌≡◌, ◌≤◌, ◌+◌, map, length, IfOk};
ghost use Rattle.std.specs.List.{All};
ghost use Rattle.hart_memory.specs.declared.address_map.TheConstants.{RAM_BASE, BANK_LEN};
ghost use Rattle.chain_lint.specs.Code.{image_rom};
ghost use Rattle.chain_time.specs.Table.{IsTriple, HasGoodWord, pair_of, timed as timed_of, table_times};
ghost use Rattle.chain_time.specs.Ways.{AreAllWays};

use crate::table_fault::TableFault;
use crate::timed::Timed;
use crate::times::Times;
use crate::triple::Triple;
use crate::ways::Ways;
use chain_flow::Region;
use chain_lint::{Pair, Pairs, TableBound, bound_of_table, memory_of, word_at};
use hart_memory::{Banks, Image};
use hart_words::{WantOfMemory, even};
use std::alloc::Global;

// The inputs with their levels alone.
fn pairs_in(alloc: Global, triples: &[Triple]) -> Result<Pairs, WantOfMemory>
    requires { All IsTriple triples.now }
    ensures { IfOk result (λ pairs. pairs ≡ map (λ q. pair_of q) triples.now) }
{
    let mut pairs = Pairs::new(alloc);
    for triple in triples {
        pairs.push(Pair {
            input: triple.input,
            level: triple.level,
        })?;
    }
    Ok(pairs)
}

// The input of a triple with the longest way through its handler.
fn timed(code: &Banks, ways: &Ways, table: u32, triple: &Triple) -> Timed
    requires table { table ≤ 0x1_0000 }
    requires ways { AreAllWays code.now.present.rom ways.now }
    requires word { HasGoodWord table triple.now }
    ensures { result ≡ timed_of code.now.present.rom table triple.now }
{
    let Triple {
        input,
        level,
        count,
    } = *triple;
    let Some(word) = word_at(code, table + 4 * u32::from(input)) else {
        unreachable!()
    };
    let handler = even(word);
    Timed {
        input,
        level,
        handler,
        path: ways.path(handler),
        count,
    }
}

// The times of a table whose words are all in ROM.
fn times_in(
    alloc: Global,
    code: &Banks,
    table: u32,
    triples: &[Triple],
) -> Result<Times, WantOfMemory>
    requires table { table ≤ 0x1_0000 }
    requires few { length triples.now ≤ 1024 }
    requires words { All (HasGoodWord table) triples.now }
    ensures { IfOk result (λ times. times ≡ map (λ q. timed_of code.now.present.rom table q) triples.now) }
{
    let ways = Ways::new(alloc, code)?;
    let mut times = Times::new(alloc);
    for i in 0..triples.len() {
        times.push(timed(code, &ways, table, &triples[i]))?;
    }
    Ok(times)
}

/// The times of the handlers of these inputs, in the table at an address of the image; or the first word
/// or handler that is refused.
pub fn times_of_table(
    alloc: Global,
    image: &Image,
    region: Region,
    table: u32,
    triples: &[Triple],
) -> Result<Result<Times, TableFault>, WantOfMemory>
    requires table { table ≤ 0x1_0000 }
    requires low { (RAM_BASE ≤ region.low) × (region.low ≤ RAM_BASE + BANK_LEN) }
    requires high { (RAM_BASE ≤ region.high) × (region.high ≤ RAM_BASE + BANK_LEN) }
    requires levels { All IsTriple triples.now }
    requires few { length triples.now ≤ 1024 }
    ensures { IfOk result (λ answer. answer ≡ table_times (image_rom image.now) region table triples.now) }
{
    let pairs = pairs_in(alloc, triples)?;
    match bound_of_table(alloc, image, region, table, pairs.as_slice())? {
        TableBound::Bound(_) => {
            let code = memory_of(alloc, image)?;
            Ok(Ok(times_in(alloc, &code, table, triples)?))
        }
        TableBound::BadTable(at) => Ok(Err(TableFault::BadTable(at))),
        TableBound::Refused { why, at } => Ok(Err(TableFault::Refused { why, at })),
    }
}
