// The command of an ELF file's image, as clap is told of it, and what its words say.
ghost use Rattle.std.specs.Prelude.{◌≡◌, IfOk, option_map};
ghost use Rattle.clap.specs.Words.{app_of, found_of, rows_of};
ghost use Rattle.tool_frame.specs.Options.{taken};
ghost use Rattle.lab_words.specs.Elf.{elf_app, elf_in, view_elf};

use crate::elf_order::ElfOrder;
use board_outside::Word;
use clap::{ArgMatches, Command};
use hart_words::WantOfMemory;
use std::alloc::{AllocError, Global};
use tool_frame::{matches_taken, text_argument, text_given};

// The command `elf`: an ELF file's name.
fn elf_command<'a>(alloc: Global) -> Result<Command<'a>, AllocError>
    ensures { IfOk result (λ command. app_of command ≡ elf_app) }
{
    let with_file = Command::new(alloc, "elf").arg(text_argument(alloc, "FILE"))?;
    Ok(with_file)
}

// The file that the matches say.
#[tactic(auto, unfolding(crate::specs::Elf::elf_in))]
fn elf_order<'a>(matches: &ArgMatches<'a>) -> ElfOrder<'a>
    ensures { view_elf result ≡ elf_in (rows_of (found_of matches.now)) }
{
    ElfOrder {
        file: text_given(matches, "FILE"),
    }
}

/// The file that the words say, of which the first is taken for the command's.
pub fn read_elf<'a>(alloc: Global, words: &'a [Word]) -> Result<Option<ElfOrder<'a>>, WantOfMemory>
    ensures { IfOk result (λ order. option_map view_elf order ≡ taken elf_app elf_in words.entry.now) }
{
    let command = elf_command(alloc)?;
    match matches_taken(command, words)? {
        Some(matches) => Ok(Some(elf_order(&matches))),
        None => Ok(None),
    }
}
