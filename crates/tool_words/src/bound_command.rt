// The command of a bound, as clap is told of it, and what its words say.
ghost use Rattle.std.specs.Prelude.{◌≡◌, IfOk, option_map};
ghost use Rattle.clap.specs.Words.{app_of, found_of, rows_of};
ghost use Rattle.tool_frame.specs.Options.{taken_if};
ghost use Rattle.tool_words.specs.Bound.{bound_app, bound_in, view_bound};

use crate::bound_order::BoundOrder;
use board_outside::Word;
use chain_lint::read_pairs;
use clap::{ArgMatches, Command};
use hart_words::WantOfMemory;
use std::alloc::{AllocError, Global};
use tool_frame::{matches_taken, number_argument, number_given, text_argument, text_given};

// The command `bound`: an image's name, the stack region, a table's address, and inputs with their levels.
fn bound_command<'a>(alloc: Global) -> Result<Command<'a>, AllocError>
    ensures { IfOk result (λ command. app_of command ≡ bound_app) }
{
    let with_image = Command::new(alloc, "bound").arg(text_argument(alloc, "IMAGE"))?;
    let with_low = with_image.arg(number_argument(alloc, "LOW", 536_870_912, 536_936_448))?;
    let with_high = with_low.arg(number_argument(alloc, "HIGH", 536_870_912, 536_936_448))?;
    let with_table = with_high.arg(number_argument(alloc, "MTVT", 0, 65_472))?;
    let with_pairs = with_table.arg(text_argument(alloc, "PAIRS"))?;
    Ok(with_pairs)
}

// The bound that the matches ask for, where the last word spells pairs.
#[tactic(auto, unfolding(crate::specs::Bound::bound_in))]
fn bound_order<'a>(
    alloc: Global,
    matches: &ArgMatches<'a>,
) -> Result<Option<BoundOrder<'a>>, WantOfMemory>
    ensures { IfOk result (λ order. option_map view_bound order ≡ bound_in (rows_of (found_of matches.now))) }
{
    match read_pairs(alloc, text_given(matches, "PAIRS"))? {
        Some(pairs) => Ok(Some(BoundOrder {
            image: text_given(matches, "IMAGE"),
            low: number_given(matches, "LOW"),
            high: number_given(matches, "HIGH"),
            table: number_given(matches, "MTVT"),
            pairs,
        })),
        None => Ok(None),
    }
}

/// The bound that the words ask for, of which the first is taken for the command's.
pub fn read_bound<'a>(
    alloc: Global,
    words: &'a [Word],
) -> Result<Option<BoundOrder<'a>>, WantOfMemory>
    ensures { IfOk result (λ order. option_map view_bound order ≡ taken_if bound_app bound_in words.entry.now) }
{
    let command = bound_command(alloc)?;
    match matches_taken(command, words)? {
        Some(matches) => bound_order(alloc, &matches),
        None => Ok(None),
    }
}
