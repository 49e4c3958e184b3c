// The words, as clap is told of them, and what they say.
ghost use Rattle.std.specs.Prelude.{◌≡◌, IfOk, option_map};
ghost use Rattle.clap.specs.Words.{app_of, found_of, rows_of};
ghost use Rattle.template_tool.specs.Words.{template_app, order_in, order_of, view, way_in};

use crate::order::Order;
use board_outside::Words;
use chain_moves::Dispatcher;
use clap::{ArgMatches, Command};
use hart_words::WantOfMemory;
use std::alloc::{AllocError, Global};
use tool_frame::{matches_taken, names, number_argument, number_given, text_argument, text_given};

// An image's name, a scenario's name, and a bound in steps.
fn template_command<'a>(alloc: Global) -> Result<Command<'a>, AllocError>
    ensures { IfOk result (λ command. app_of command ≡ template_app) }
{
    let with_image = Command::new(alloc, "template").arg(text_argument(alloc, "IMAGE"))?;
    let with_scenario = with_image.arg(text_argument(alloc, "SCENARIO"))?;
    let with_bound = with_scenario.arg(number_argument(alloc, "BOUND", 0, 1_000_000_000))?;
    Ok(with_bound)
}

// The way to run that the first word names: without a dispatcher, or under one.
fn way_in(words: &Words) -> Option<Option<Dispatcher>>
    ensures { result ≡ way_in words.now }
{
    if names(words, "run") {
        Some(None)
    } else if names(words, "looping") {
        Some(Some(Dispatcher::Looping))
    } else if names(words, "returning") {
        Some(Some(Dispatcher::Returning))
    } else {
        None
    }
}

// What the matches say.
#[tactic(auto, unfolding(crate::specs::Words::order_in))]
fn order_in<'a>(under: Option<Dispatcher>, matches: &ArgMatches<'a>) -> Order<'a>
    ensures { view result ≡ order_in under (rows_of (found_of matches.now)) }
{
    Order {
        under,
        image: text_given(matches, "IMAGE"),
        scenario: text_given(matches, "SCENARIO"),
        bound: number_given(matches, "BOUND"),
    }
}

/// What the words ask for, where they are such as the program takes.
#[tactic(auto, unfolding(crate::specs::Words::order_of))]
pub fn read_order<'a>(alloc: Global, words: &'a Words) -> Result<Option<Order<'a>>, WantOfMemory>
    ensures { IfOk result (λ order. option_map view order ≡ order_of words.entry.now) }
{
    let Some(under) = way_in(words) else {
        return Ok(None);
    };
    let command = template_command(alloc)?;
    match matches_taken(command, words.as_slice())? {
        Some(matches) => Ok(Some(order_in(under, &matches))),
        None => Ok(None),
    }
}
