// Reads a scenario.
ghost use Rattle.std.specs.Prelude.{◌≡◌, ◌+◌, ◌<◌, ◌≤◌, ◌^◌, [], length, option_map, Ok, IfOk, IfErr, IsTrue};
ghost use Rattle.hart_words.specs.Lines.{lines_left, left};
ghost use Rattle.hart_board.specs.Event.{EventList, is_free, last_count};
ghost use Rattle.board_inputs.specs.ScenarioFile.{IsScenarioFile};
ghost use Rattle.board_inputs.specs.FirstWrong.{RefusesFirst};
ghost use Rattle.board_inputs.specs.ScenarioReading.{Gives, Becomes, with_event, with_line, with_lines, in_shape, scenario_of};

use crate::line_meaning::LineMeaning;
use crate::lines::line_meaning;
use crate::opening::opening;
use crate::scenario_error::ScenarioError;
use crate::scenario_why::ScenarioWhy;
use clic_regs::Shape;
use hart_board::{Event, Events};
use hart_words::cut_line;
use std::alloc::Global;

/// The greatest number of events in a scenario.
pub const MAX_EVENTS: usize = 65_536;

// The count of the last event, 0 where there is none.
fn last_count(events: &Events) -> u64
    ensures { result ≡ last_count 0 events.now.list }
{
    let count = events.len();
    if count == 0 {
        return 0;
    }
    events.get(count - 1).at
}

// Adds the event of a line.
fn take_event(event: Event, number: u32, events: &mut Events) -> Result<(), ScenarioError>
    requires { IsTrue (is_free events.old.shape.inputs event.what) }
    ensures shape { events.new.shape ≡ events.old.shape }
    ensures list { Becomes events.old.list events.new.list result (with_event event number events.old.list) }
{
    if event.at < last_count(events) {
        return Err(ScenarioError::Refused {
            line: number,
            why: ScenarioWhy::OutOfOrder,
        });
    }
    if events.len() >= MAX_EVENTS {
        return Err(ScenarioError::Refused {
            line: number,
            why: ScenarioWhy::TooMany,
        });
    }
    Ok(events.push(event)?)
}

// Takes one line.
#[tactic(auto, unfolding(crate::specs::ScenarioReading::with_line))]
fn take_line(line: &[u8], number: u64, events: &mut Events) -> Result<(), ScenarioError>
    requires number { number + length line.now ≤ 2 ^ 32 }
    ensures shape { events.new.shape ≡ events.old.shape }
    ensures list { Becomes events.old.list events.new.list result (with_line events.old.shape.inputs line.now number events.old.list) }
{
    match line_meaning(line, events.shape().inputs()) {
        LineMeaning::Passed => Ok(()),
        LineMeaning::Bad => Err(ScenarioError::Refused {
            line: number as u32,
            why: ScenarioWhy::BadLine,
        }),
        LineMeaning::Told(event) => take_event(event, number as u32, events),
    }
}

// The events of a shape that the rest of a file tells, whose first line has that number.
fn events_in(
    alloc: Global,
    shape: Shape,
    first: u64,
    lines: Option<&[u8]>,
) -> Result<Events, ScenarioError>
    requires few { first + left (option_map (λ s. s.now) lines) ≤ 2 ^ 32 + 1 }
    ensures { Gives result (in_shape shape (with_lines shape.inputs (lines_left (option_map (λ s. s.now) lines.entry)) first [])) }
{
    let mut events = Events::new(alloc, shape);
    let mut number = first;
    let mut rest = lines;
    while let Some(text) = rest {
        let (line, after) = cut_line(text);
        take_line(line, number, &mut events)?;
        number += 1;
        rest = after;
    }
    Ok(events)
}

/// The events of the scenario whose file these bytes are, for boards of the shape that it says.
#[tactic(auto, unfolding(crate::specs::ScenarioReading::scenario_of))]
pub fn read_scenario(alloc: Global, bytes: &[u8]) -> Result<Events, ScenarioError>
    requires { length bytes.now < 2 ^ 32 }
    // What is read is what the file tells.
    ensures found { IfOk result (λ es. IsScenarioFile bytes.now es) }
    // What a file tells is read, unless memory was wanting.
    ensures only { (es : EventList) → IsScenarioFile bytes.now es → Gives result (Ok es) }
    // Otherwise it is the first line in which something is wrong, and what that is.
    ensures first { IfErr result (λ e. RefusesFirst bytes.now e) }
    // All of it in one equation.
    ensures exact { Gives result (scenario_of bytes.now) }
{
    let (shape, first, lines) = opening(bytes);
    events_in(alloc, shape, first, lines)
}
