// The command of an image of a memory text, as clap is told of it, and what its words say.
ghost use Rattle.std.specs.Prelude.{◌≡◌, IfOk, option_map};
ghost use Rattle.clap.specs.Words.{app_of, found_of, rows_of};
ghost use Rattle.tool_frame.specs.Options.{taken};
ghost use Rattle.tool_words.specs.Unmem.{unmem_app, unmem_in, view_unmem};

use crate::unmem_order::UnmemOrder;
use board_outside::Word;
use clap::{ArgMatches, Command};
use hart_words::WantOfMemory;
use std::alloc::{AllocError, Global};
use tool_frame::{matches_taken, number_argument, number_given, text_argument, text_given};

// How many addresses there are.
const ADDRESSES: u64 = 1 << 32;

// The command `unmem`: a text's name, and the image's entry.
fn unmem_command<'a>(alloc: Global) -> Result<Command<'a>, AllocError>
    ensures { IfOk result (λ command. app_of command ≡ unmem_app) }
{
    let with_file = Command::new(alloc, "unmem").arg(text_argument(alloc, "FILE"))?;
    let with_entry = with_file.arg(number_argument(alloc, "ENTRY", 0, u32::MAX))?;
    Ok(with_entry)
}

// The image that the matches ask for.
#[tactic(auto, unfolding(crate::specs::Unmem::unmem_in))]
fn unmem_order<'a>(matches: &ArgMatches<'a>) -> UnmemOrder<'a>
    ensures { view_unmem result ≡ unmem_in (rows_of (found_of matches.now)) }
{
    UnmemOrder {
        memory: text_given(matches, "FILE"),
        entry: (number_given(matches, "ENTRY") % ADDRESSES) as u32,
    }
}

/// The image that the words ask for, of which the first is taken for the command's.
pub fn read_unmem<'a>(
    alloc: Global,
    words: &'a [Word],
) -> Result<Option<UnmemOrder<'a>>, WantOfMemory>
    ensures { IfOk result (λ order. option_map view_unmem order ≡ taken unmem_app unmem_in words.entry.now) }
{
    let command = unmem_command(alloc)?;
    match matches_taken(command, words)? {
        Some(matches) => Ok(Some(unmem_order(&matches))),
        None => Ok(None),
    }
}
