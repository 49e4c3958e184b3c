// The command of a chain, as clap is told of it, and what its words say.
ghost use Rattle.std.specs.Prelude.{◌≡◌, IfOk, option_map};
ghost use Rattle.clap.specs.Words.{app_of, found_of, rows_of};
ghost use Rattle.tool_frame.specs.Options.{taken_if};
ghost use Rattle.tool_words.specs.Chain.{chain_app, chain_in, dispatcher_of, view_chain};

use crate::chain_order::ChainOrder;
use board_outside::Word;
use chain_moves::Dispatcher;
use clap::{ArgMatches, Command};
use hart_words::WantOfMemory;
use std::alloc::{AllocError, Global};
use tool_frame::{
    flag_argument, is_given, matches_taken, number_argument, number_given, text_argument,
    text_given,
};

// The command `chain`: an image's name, a scenario's name, a dispatcher's name, a bound in steps, and two flags.
fn chain_command<'a>(alloc: Global) -> Result<Command<'a>, AllocError>
    ensures { IfOk result (λ command. app_of command ≡ chain_app) }
{
    let with_image = Command::new(alloc, "chain").arg(text_argument(alloc, "IMAGE"))?;
    let with_scenario = with_image.arg(text_argument(alloc, "SCENARIO"))?;
    let with_dispatcher = with_scenario.arg(text_argument(alloc, "DISPATCHER"))?;
    let with_bound = with_dispatcher.arg(number_argument(alloc, "BOUND", 0, 1_000_000_000))?;
    let with_trace = with_bound.arg(flag_argument(alloc, "trace"))?;
    let with_direct = with_trace.arg(flag_argument(alloc, "direct"))?;
    Ok(with_direct)
}

/// The dispatcher of that name.
pub fn dispatcher_named(name: &str) -> Option<Dispatcher>
    ensures { result ≡ dispatcher_of name.now }
{
    if name == "looping" {
        Some(Dispatcher::Looping)
    } else if name == "returning" {
        Some(Dispatcher::Returning)
    } else {
        None
    }
}

// The chain that the matches say, where there is a dispatcher of that name.
#[tactic(auto, unfolding(crate::specs::Chain::chain_in))]
fn chain_order<'a>(matches: &ArgMatches<'a>) -> Option<ChainOrder<'a>>
    ensures { option_map view_chain result ≡ chain_in (rows_of (found_of matches.now)) }
{
    match dispatcher_named(text_given(matches, "DISPATCHER")) {
        Some(dispatcher) => Some(ChainOrder {
            image: text_given(matches, "IMAGE"),
            scenario: text_given(matches, "SCENARIO"),
            dispatcher,
            bound: number_given(matches, "BOUND"),
            trace: is_given(matches, "trace"),
            direct: is_given(matches, "direct"),
        }),
        None => None,
    }
}

/// The chain that the words say, of which the first is taken for the command's.
pub fn read_chain<'a>(
    alloc: Global,
    words: &'a [Word],
) -> Result<Option<ChainOrder<'a>>, WantOfMemory>
    ensures { IfOk result (λ order. option_map view_chain order ≡ taken_if chain_app chain_in words.entry.now) }
{
    let command = chain_command(alloc)?;
    match matches_taken(command, words)? {
        Some(matches) => Ok(chain_order(&matches)),
        None => Ok(None),
    }
}
