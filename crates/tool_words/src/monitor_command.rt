// The command of a script, as clap is told of it, and what its words say.
ghost use Rattle.std.specs.Prelude.{◌≡◌, IfOk, option_map};
ghost use Rattle.clap.specs.Words.{app_of, found_of, rows_of};
ghost use Rattle.tool_frame.specs.Options.{taken};
ghost use Rattle.tool_words.specs.Monitor.{monitor_app, monitor_in, view_monitor};

use crate::monitor_order::MonitorOrder;
use board_outside::Word;
use clap::{ArgMatches, Command};
use hart_words::WantOfMemory;
use std::alloc::{AllocError, Global};
use tool_frame::{matches_taken, text_argument, text_given};

// The command `monitor`: an image's name and a script's name.
fn monitor_command<'a>(alloc: Global) -> Result<Command<'a>, AllocError>
    ensures { IfOk result (λ command. app_of command ≡ monitor_app) }
{
    let with_image = Command::new(alloc, "monitor").arg(text_argument(alloc, "IMAGE"))?;
    let with_script = with_image.arg(text_argument(alloc, "SCRIPT"))?;
    Ok(with_script)
}

// The script that the matches say.
#[tactic(auto, unfolding(crate::specs::Monitor::monitor_in))]
fn monitor_order<'a>(matches: &ArgMatches<'a>) -> MonitorOrder<'a>
    ensures { view_monitor result ≡ monitor_in (rows_of (found_of matches.now)) }
{
    MonitorOrder {
        image: text_given(matches, "IMAGE"),
        script: text_given(matches, "SCRIPT"),
    }
}

/// The script that the words say, of which the first is taken for the command's.
pub fn read_monitor<'a>(
    alloc: Global,
    words: &'a [Word],
) -> Result<Option<MonitorOrder<'a>>, WantOfMemory>
    ensures { IfOk result (λ order. option_map view_monitor order ≡ taken monitor_app monitor_in words.entry.now) }
{
    let command = monitor_command(alloc)?;
    match matches_taken(command, words)? {
        Some(matches) => Ok(Some(monitor_order(&matches))),
        None => Ok(None),
    }
}
