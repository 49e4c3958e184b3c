// The command of a disassembly, as clap is told of it, and what its words say.
ghost use Rattle.std.specs.Prelude.{◌≡◌, IfOk, option_map};
ghost use Rattle.clap.specs.Words.{app_of, found_of, rows_of};
ghost use Rattle.tool_frame.specs.Options.{taken};
ghost use Rattle.tool_words.specs.Disassemble.{disassemble_app, disassemble_in, view_disassemble};

use crate::disassemble_order::DisassembleOrder;
use board_outside::Word;
use clap::{ArgMatches, Command};
use hart_words::WantOfMemory;
use std::alloc::{AllocError, Global};
use tool_frame::{matches_taken, text_argument, text_given};

// The command `disasm`: an image's name.
fn disassemble_command<'a>(alloc: Global) -> Result<Command<'a>, AllocError>
    ensures { IfOk result (λ command. app_of command ≡ disassemble_app) }
{
    let with_image = Command::new(alloc, "disasm").arg(text_argument(alloc, "IMAGE"))?;
    Ok(with_image)
}

// The disassembly that the matches say.
#[tactic(auto, unfolding(crate::specs::Disassemble::disassemble_in))]
fn disassemble_order<'a>(matches: &ArgMatches<'a>) -> DisassembleOrder<'a>
    ensures { view_disassemble result ≡ disassemble_in (rows_of (found_of matches.now)) }
{
    DisassembleOrder {
        image: text_given(matches, "IMAGE"),
    }
}

/// The disassembly that the words say, of which the first is taken for the command's.
pub fn read_disassemble<'a>(
    alloc: Global,
    words: &'a [Word],
) -> Result<Option<DisassembleOrder<'a>>, WantOfMemory>
    ensures { IfOk result (λ order. option_map view_disassemble order ≡ taken disassemble_app disassemble_in words.entry.now) }
{
    let command = disassemble_command(alloc)?;
    match matches_taken(command, words)? {
        Some(matches) => Ok(Some(disassemble_order(&matches))),
        None => Ok(None),
    }
}
