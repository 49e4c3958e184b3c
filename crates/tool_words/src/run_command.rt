// The command of a run, as clap is told of it, and what its words say.
ghost use Rattle.std.specs.Prelude.{◌≡◌, IfOk, option_map};
ghost use Rattle.clap.specs.Words.{app_of, found_of, rows_of};
ghost use Rattle.tool_frame.specs.Options.{taken};
ghost use Rattle.tool_words.specs.Run.{run_app, run_in, view_run};

use crate::run_order::RunOrder;
use board_outside::Word;
use clap::{ArgMatches, Command};
use hart_words::WantOfMemory;
use std::alloc::{AllocError, Global};
use tool_frame::{
    flag_argument, is_given, matches_taken, number_argument, number_given, text_argument,
    text_given,
};

// The command `run`: an image's name, a scenario's name, a bound in steps, and a flag.
fn run_command<'a>(alloc: Global) -> Result<Command<'a>, AllocError>
    ensures { IfOk result (λ command. app_of command ≡ run_app) }
{
    let with_image = Command::new(alloc, "run").arg(text_argument(alloc, "IMAGE"))?;
    let with_scenario = with_image.arg(text_argument(alloc, "SCENARIO"))?;
    let with_bound = with_scenario.arg(number_argument(alloc, "BOUND", 0, 1_000_000_000))?;
    let with_trace = with_bound.arg(flag_argument(alloc, "trace"))?;
    Ok(with_trace)
}

// The run that the matches say.
#[tactic(auto, unfolding(crate::specs::Run::run_in))]
fn run_order<'a>(matches: &ArgMatches<'a>) -> RunOrder<'a>
    ensures { view_run result ≡ run_in (rows_of (found_of matches.now)) }
{
    RunOrder {
        image: text_given(matches, "IMAGE"),
        scenario: text_given(matches, "SCENARIO"),
        bound: number_given(matches, "BOUND"),
        trace: is_given(matches, "trace"),
    }
}

/// The run that the words say, of which the first is taken for the command's.
pub fn read_run<'a>(alloc: Global, words: &'a [Word]) -> Result<Option<RunOrder<'a>>, WantOfMemory>
    ensures { IfOk result (λ order. option_map view_run order ≡ taken run_app run_in words.entry.now) }
{
    let command = run_command(alloc)?;
    match matches_taken(command, words)? {
        Some(matches) => Ok(Some(run_order(&matches))),
        None => Ok(None),
    }
}
