// The command of a memory text, as clap is told of it, and what its words say.
ghost use Rattle.std.specs.Prelude.{◌≡◌, IfOk, option_map};
ghost use Rattle.clap.specs.Words.{app_of, found_of, rows_of};
ghost use Rattle.tool_frame.specs.Options.{taken};
ghost use Rattle.tool_words.specs.Mem.{mem_app, mem_in, view_mem};

use crate::mem_order::MemOrder;
use board_outside::Word;
use clap::{ArgMatches, Command};
use hart_words::WantOfMemory;
use std::alloc::{AllocError, Global};
use tool_frame::{matches_taken, text_argument, text_given};

// The command `mem`: an image's name.
fn mem_command<'a>(alloc: Global) -> Result<Command<'a>, AllocError>
    ensures { IfOk result (λ command. app_of command ≡ mem_app) }
{
    let with_image = Command::new(alloc, "mem").arg(text_argument(alloc, "IMAGE"))?;
    Ok(with_image)
}

// The text that the matches ask for.
#[tactic(auto, unfolding(crate::specs::Mem::mem_in))]
fn mem_order<'a>(matches: &ArgMatches<'a>) -> MemOrder<'a>
    ensures { view_mem result ≡ mem_in (rows_of (found_of matches.now)) }
{
    MemOrder {
        image: text_given(matches, "IMAGE"),
    }
}

/// The text that the words ask for, of which the first is taken for the command's.
pub fn read_mem<'a>(alloc: Global, words: &'a [Word]) -> Result<Option<MemOrder<'a>>, WantOfMemory>
    ensures { IfOk result (λ order. option_map view_mem order ≡ taken mem_app mem_in words.entry.now) }
{
    let command = mem_command(alloc)?;
    match matches_taken(command, words)? {
        Some(matches) => Ok(Some(mem_order(&matches))),
        None => Ok(None),
    }
}
