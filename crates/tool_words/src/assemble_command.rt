// The command of an assembly, as clap is told of it, and what its words say.
ghost use Rattle.std.specs.Prelude.{◌≡◌, IfOk, option_map};
ghost use Rattle.clap.specs.Words.{app_of, found_of, rows_of};
ghost use Rattle.tool_frame.specs.Options.{taken};
ghost use Rattle.tool_words.specs.Assemble.{assemble_app, assemble_in, view_assemble};

use crate::assemble_order::AssembleOrder;
use board_outside::Word;
use clap::{ArgMatches, Command};
use hart_words::WantOfMemory;
use std::alloc::{AllocError, Global};
use tool_frame::{flag_argument, is_given, matches_taken, text_argument, text_given};

// The command `asm`: a source's name, and a flag.
fn assemble_command<'a>(alloc: Global) -> Result<Command<'a>, AllocError>
    ensures { IfOk result (λ command. app_of command ≡ assemble_app) }
{
    let with_source = Command::new(alloc, "asm").arg(text_argument(alloc, "SOURCE"))?;
    let with_symbols = with_source.arg(flag_argument(alloc, "symbols"))?;
    Ok(with_symbols)
}

// The assembly that the matches say.
#[tactic(auto, unfolding(crate::specs::Assemble::assemble_in))]
fn assemble_order<'a>(matches: &ArgMatches<'a>) -> AssembleOrder<'a>
    ensures { view_assemble result ≡ assemble_in (rows_of (found_of matches.now)) }
{
    AssembleOrder {
        source: text_given(matches, "SOURCE"),
        symbols: is_given(matches, "symbols"),
    }
}

/// The assembly that the words say, of which the first is taken for the command's.
pub fn read_assemble<'a>(
    alloc: Global,
    words: &'a [Word],
) -> Result<Option<AssembleOrder<'a>>, WantOfMemory>
    ensures { IfOk result (λ order. option_map view_assemble order ≡ taken assemble_app assemble_in words.entry.now) }
{
    let command = assemble_command(alloc)?;
    match matches_taken(command, words)? {
        Some(matches) => Ok(Some(assemble_order(&matches))),
        None => Ok(None),
    }
}
