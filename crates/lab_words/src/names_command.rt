// The command of an ELF file's names, as clap is told of it, and what its words say.
ghost use Rattle.std.specs.Prelude.{◌≡◌, IfOk, option_map};
ghost use Rattle.clap.specs.Words.{app_of, found_of, rows_of};
ghost use Rattle.tool_frame.specs.Options.{taken};
ghost use Rattle.lab_words.specs.Names.{names_app, names_in, view_names};

use crate::names_order::NamesOrder;
use board_outside::Word;
use clap::{ArgMatches, Command};
use hart_words::WantOfMemory;
use std::alloc::{AllocError, Global};
use tool_frame::{flag_argument, is_given, matches_taken, text_argument, text_given};

// The command `names`: an ELF file's name, and a flag.
fn names_command<'a>(alloc: Global) -> Result<Command<'a>, AllocError>
    ensures { IfOk result (λ command. app_of command ≡ names_app) }
{
    let with_file = Command::new(alloc, "names").arg(text_argument(alloc, "FILE"))?;
    let with_code = with_file.arg(flag_argument(alloc, "code"))?;
    Ok(with_code)
}

// What the matches say.
#[tactic(auto, unfolding(crate::specs::Names::names_in))]
fn names_order<'a>(matches: &ArgMatches<'a>) -> NamesOrder<'a>
    ensures { view_names result ≡ names_in (rows_of (found_of matches.now)) }
{
    NamesOrder {
        file: text_given(matches, "FILE"),
        code: is_given(matches, "code"),
    }
}

/// What the words say, of which the first is taken for the command's.
pub fn read_names<'a>(
    alloc: Global,
    words: &'a [Word],
) -> Result<Option<NamesOrder<'a>>, WantOfMemory>
    ensures { IfOk result (λ order. option_map view_names order ≡ taken names_app names_in words.entry.now) }
{
    let command = names_command(alloc)?;
    match matches_taken(command, words)? {
        Some(matches) => Ok(Some(names_order(&matches))),
        None => Ok(None),
    }
}
