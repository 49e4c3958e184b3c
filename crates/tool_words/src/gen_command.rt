// The command of made chains, as clap is told of it, and what its words say.
ghost use Rattle.std.specs.Prelude.{◌≡◌, IfOk, option_map};
ghost use Rattle.clap.specs.Words.{app_of, found_of, rows_of};
ghost use Rattle.tool_frame.specs.Options.{taken};
ghost use Rattle.tool_words.specs.Gen.{gen_app, gen_in, view_gen};

use crate::gen_order::GenOrder;
use board_outside::Word;
use clap::{ArgMatches, Command};
use hart_words::WantOfMemory;
use std::alloc::{AllocError, Global};
use tool_frame::{matches_taken, number_argument, number_given};

// How many numbers a u16 has.
const NUMBERS: u64 = 1 << 16;

// The command `gen`: a number.
fn gen_command<'a>(alloc: Global) -> Result<Command<'a>, AllocError>
    ensures { IfOk result (λ command. app_of command ≡ gen_app) }
{
    let with_number = Command::new(alloc, "gen").arg(number_argument(alloc, "N", 0, 10_000))?;
    Ok(with_number)
}

// The number that the matches say.
#[tactic(auto, unfolding(crate::specs::Gen::gen_in))]
fn gen_order(matches: &ArgMatches<'_>) -> GenOrder
    ensures { view_gen result ≡ gen_in (rows_of (found_of matches.now)) }
{
    GenOrder {
        number: (number_given(matches, "N") % NUMBERS) as u16,
    }
}

/// The number that the words say, of which the first is taken for the command's.
pub fn read_gen(alloc: Global, words: &[Word]) -> Result<Option<GenOrder>, WantOfMemory>
    ensures { IfOk result (λ order. option_map view_gen order ≡ taken gen_app gen_in words.entry.now) }
{
    let command = gen_command(alloc)?;
    match matches_taken(command, words)? {
        Some(matches) => Ok(Some(gen_order(&matches))),
        None => Ok(None),
    }
}
