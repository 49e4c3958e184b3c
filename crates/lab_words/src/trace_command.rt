// The command of a trace, as clap is told of it, and what its words say.
ghost use Rattle.std.specs.Prelude.{◌≡◌, IfOk, option_map};
ghost use Rattle.clap.specs.Words.{app_of, found_of, rows_of};
ghost use Rattle.tool_frame.specs.Options.{taken_if};
ghost use Rattle.lab_words.specs.Trace.{chaining_of, trace_app, trace_in, view_trace};

use crate::chaining::Chaining;
use crate::trace_order::TraceOrder;
use board_outside::Word;
use clap::{ArgMatches, Command};
use hart_words::WantOfMemory;
use std::alloc::{AllocError, Global};
use tool_frame::{
    flag_argument, is_given, matches_taken, number_argument, number_given, option_argument,
    text_argument, text_given, text_if_given,
};
use tool_words::dispatcher_named;

// The command `trace`: an image's name, a scenario's name, a bound in steps, two options and a flag.
fn trace_command<'a>(alloc: Global) -> Result<Command<'a>, AllocError>
    ensures { IfOk result (λ command. app_of command ≡ trace_app) }
{
    let with_image = Command::new(alloc, "trace").arg(text_argument(alloc, "IMAGE"))?;
    let with_scenario = with_image.arg(text_argument(alloc, "SCENARIO"))?;
    let with_bound = with_scenario.arg(number_argument(alloc, "BOUND", 0, 1_000_000_000))?;
    let with_dispatcher = with_bound.arg(option_argument(alloc, "dispatcher"))?;
    let with_direct = with_dispatcher.arg(flag_argument(alloc, "direct"))?;
    let with_names = with_direct.arg(option_argument(alloc, "names"))?;
    Ok(with_names)
}

// The dispatcher of a name, with direct services or without; where there is no name, none, and then no direct services.
fn chaining_named(name: Option<&str>, direct: bool) -> Option<Option<Chaining>>
    ensures { result ≡ chaining_of (option_map (λ s. s.now) name.entry) direct }
{
    match name {
        Some(name) => match dispatcher_named(name) {
            Some(dispatcher) => Some(Some(Chaining { dispatcher, direct })),
            None => None,
        },
        None => { if direct { None } else { Some(None) } }
    }
}

// The trace that the matches say, where they say one.
#[tactic(auto, unfolding(crate::specs::Trace::trace_in))]
fn trace_order<'a>(matches: &ArgMatches<'a>) -> Option<TraceOrder<'a>>
    ensures { option_map view_trace result ≡ trace_in (rows_of (found_of matches.now)) }
{
    match chaining_named(
        text_if_given(matches, "dispatcher"),
        is_given(matches, "direct"),
    ) {
        Some(chaining) => Some(TraceOrder {
            image: text_given(matches, "IMAGE"),
            scenario: text_given(matches, "SCENARIO"),
            bound: number_given(matches, "BOUND"),
            chaining,
            names: text_if_given(matches, "names"),
        }),
        None => None,
    }
}

/// The trace that the words say, of which the first is taken for the command's.
pub fn read_trace<'a>(
    alloc: Global,
    words: &'a [Word],
) -> Result<Option<TraceOrder<'a>>, WantOfMemory>
    ensures { IfOk result (λ order. option_map view_trace order ≡ taken_if trace_app trace_in words.entry.now) }
{
    let command = trace_command(alloc)?;
    match matches_taken(command, words)? {
        Some(matches) => Ok(trace_order(&matches)),
        None => Ok(None),
    }
}
