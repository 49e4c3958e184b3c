// The command of a verdict, as clap is told of it, and what its words say.
ghost use Rattle.std.specs.Prelude.{◌≡◌, IfOk, option_map};
ghost use Rattle.clap.specs.Words.{app_of, found_of, rows_of};
ghost use Rattle.tool_frame.specs.Options.{taken};
ghost use Rattle.tool_words.specs.Lint.{lint_app, lint_in, view_lint};

use crate::lint_order::LintOrder;
use board_outside::Word;
use clap::{ArgMatches, Command};
use hart_words::WantOfMemory;
use std::alloc::{AllocError, Global};
use tool_frame::{matches_taken, number_argument, number_given, text_argument, text_given};

// The command `lint`: an image's name, a handler, and the stack region.
fn lint_command<'a>(alloc: Global) -> Result<Command<'a>, AllocError>
    ensures { IfOk result (λ command. app_of command ≡ lint_app) }
{
    let with_image = Command::new(alloc, "lint").arg(text_argument(alloc, "IMAGE"))?;
    let with_handler = with_image.arg(number_argument(alloc, "HANDLER", 0, 65_535))?;
    let with_low = with_handler.arg(number_argument(alloc, "LOW", 536_870_912, 536_936_448))?;
    let with_high = with_low.arg(number_argument(alloc, "HIGH", 536_870_912, 536_936_448))?;
    Ok(with_high)
}

// The verdict that the matches ask for.
#[tactic(auto, unfolding(crate::specs::Lint::lint_in))]
fn lint_order<'a>(matches: &ArgMatches<'a>) -> LintOrder<'a>
    ensures { view_lint result ≡ lint_in (rows_of (found_of matches.now)) }
{
    LintOrder {
        image: text_given(matches, "IMAGE"),
        handler: number_given(matches, "HANDLER"),
        low: number_given(matches, "LOW"),
        high: number_given(matches, "HIGH"),
    }
}

/// The verdict that the words ask for, of which the first is taken for the command's.
pub fn read_lint<'a>(
    alloc: Global,
    words: &'a [Word],
) -> Result<Option<LintOrder<'a>>, WantOfMemory>
    ensures { IfOk result (λ order. option_map view_lint order ≡ taken lint_app lint_in words.entry.now) }
{
    let command = lint_command(alloc)?;
    match matches_taken(command, words)? {
        Some(matches) => Ok(Some(lint_order(&matches))),
        None => Ok(None),
    }
}
