// The command of a sweep, as clap is told of it, and what its words say.
ghost use Rattle.std.specs.Prelude.{◌≡◌, IfOk, option_map};
ghost use Rattle.clap.specs.Words.{app_of, found_of, rows_of};
ghost use Rattle.tool_frame.specs.Options.{taken_if};
ghost use Rattle.lab_words.specs.Sweep.{number_at, sweep_app, sweep_in, view_sweep};

use crate::chaining::Chaining;
use crate::part_reading::read_part;
use crate::sweep_order::SweepOrder;
use board_outside::Word;
use clap::{ArgMatches, Command};
use hart_words::WantOfMemory;
use std::alloc::{AllocError, Global};
use tool_frame::{
    flag_argument, is_given, matches_taken, number_argument, number_given, option_argument,
    text_argument, text_given, text_if_given,
};
use tool_words::dispatcher_named;

// The command `sweep`: an image's name, a scenario's name, a dispatcher's name, a bound in steps, the event that is
// moved, the counts, an option and a flag.
fn sweep_command<'a>(alloc: Global) -> Result<Command<'a>, AllocError>
    ensures { IfOk result (λ command. app_of command ≡ sweep_app) }
{
    let with_image = Command::new(alloc, "sweep").arg(text_argument(alloc, "IMAGE"))?;
    let with_scenario = with_image.arg(text_argument(alloc, "SCENARIO"))?;
    let with_dispatcher = with_scenario.arg(text_argument(alloc, "DISPATCHER"))?;
    let with_bound = with_dispatcher.arg(number_argument(alloc, "BOUND", 0, 1_000_000_000))?;
    let with_event = with_bound.arg(number_argument(alloc, "EVENT", 1, 65_536))?;
    let with_from = with_event.arg(number_argument(alloc, "FROM", 0, 1_000_000_000))?;
    let with_to = with_from.arg(number_argument(alloc, "TO", 0, 1_000_000_000))?;
    let with_part = with_to.arg(option_argument(alloc, "part"))?;
    let with_direct = with_part.arg(flag_argument(alloc, "direct"))?;
    Ok(with_direct)
}

// The number of an argument, of which clap took no greater one than 1,000,000,000.
fn number_in(matches: &ArgMatches<'_>, name: &str) -> u32
    ensures { result ≡ number_at name.now (rows_of (found_of matches.now)) }
{
    (number_given(matches, name) % (1 << 32)) as u32
}

// The sweep that the matches say, where they say one.
#[tactic(auto, unfolding(crate::specs::Sweep::sweep_in))]
fn sweep_order<'a>(matches: &ArgMatches<'a>) -> Option<SweepOrder<'a>>
    ensures { option_map view_sweep result ≡ sweep_in (rows_of (found_of matches.now)) }
{
    let from = number_in(matches, "FROM");
    let to = number_in(matches, "TO");
    if from > to {
        return None;
    }
    match (
        dispatcher_named(text_given(matches, "DISPATCHER")),
        read_part(text_if_given(matches, "part")),
    ) {
        (Some(dispatcher), Some(part)) => Some(SweepOrder {
            image: text_given(matches, "IMAGE"),
            scenario: text_given(matches, "SCENARIO"),
            chaining: Chaining {
                dispatcher,
                direct: is_given(matches, "direct"),
            },
            bound: number_given(matches, "BOUND"),
            event: number_in(matches, "EVENT"),
            from,
            to,
            part,
        }),
        _ => None,
    }
}

/// The sweep that the words say, of which the first is taken for the command's.
pub fn read_sweep<'a>(
    alloc: Global,
    words: &'a [Word],
) -> Result<Option<SweepOrder<'a>>, WantOfMemory>
    ensures { IfOk result (λ order. option_map view_sweep order ≡ taken_if sweep_app sweep_in words.entry.now) }
{
    let command = sweep_command(alloc)?;
    match matches_taken(command, words)? {
        Some(matches) => Ok(sweep_order(&matches)),
        None => Ok(None),
    }
}
