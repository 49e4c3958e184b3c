// Reads a script.
ghost use Rattle.std.specs.Prelude.{◌≡◌, ◌+◌, ◌<◌, ◌≤◌, ◌^◌, List, [], length, option_map, Ok, Err, IfOk, IfErr};
ghost use Rattle.hart_words.specs.Lines.{lines_left, left};
ghost use Rattle.hart_monitor.specs.Spelling.{IsInRange};
ghost use Rattle.hart_monitor.specs.ScriptFile.{IsScriptFile};
ghost use Rattle.hart_monitor.specs.FirstWrong.{RefusesFirst};
ghost use Rattle.hart_monitor.specs.ScriptReading.{Gives, Becomes, with_command, with_line, with_lines, script_of};
ghost use Rattle.hart_monitor.specs.declared.command.Command.{Command as Commands};
ghost use Rattle.hart_monitor.specs.declared.script_error.ScriptError.TheVariants.{Refused};

use crate::command::Command;
use crate::lines::{command_in, is_passed};
use crate::script::Script;
use crate::script_error::ScriptError;
use crate::script_why::ScriptWhy;
use hart_words::cut_line;
use std::alloc::Global;

/// The greatest number of commands in a script.
pub const MAX_COMMANDS: usize = 4_096;

// Refuses a line.
fn refused(line: u32, why: ScriptWhy) -> Result<(), ScriptError>
    ensures { result ≡ Err (Refused line why) }
{
    Err(ScriptError::Refused { line, why })
}

// Adds the command of a line.
fn take_command(command: Command, number: u32, script: &mut Script) -> Result<(), ScriptError>
    requires { IsInRange command }
    ensures { Becomes script.old script.new result (with_command command number script.old) }
{
    if script.len() >= MAX_COMMANDS {
        return refused(number, ScriptWhy::TooMany);
    }
    Ok(script.push(command)?)
}

// Takes one line.
#[tactic(auto, unfolding(crate::specs::ScriptReading::with_line))]
fn take_line(line: &[u8], number: u64, script: &mut Script) -> Result<(), ScriptError>
    requires { number + length line.now ≤ 2 ^ 32 }
    ensures { Becomes script.old script.new result (with_line line.now number script.old) }
{
    if is_passed(line) {
        return Ok(());
    }
    match command_in(line) {
        Some(command) => take_command(command, number as u32, script),
        None => refused(number as u32, ScriptWhy::BadLine),
    }
}

/// The script whose file these bytes are.
#[tactic(auto, unfolding(crate::specs::ScriptReading::script_of))]
pub fn read_script(alloc: Global, bytes: &[u8]) -> Result<Script, ScriptError>
    requires { length bytes.now < 2 ^ 32 }
    // What is read is what the file tells.
    ensures found { IfOk result (λ cs. IsScriptFile bytes.now cs) }
    // What a file tells is read, unless memory was wanting.
    ensures only { (cs : List Commands) → IsScriptFile bytes.now cs → Gives result (Ok cs) }
    // Otherwise it is the first line in which something is wrong, and what that is.
    ensures first { IfErr result (λ e. RefusesFirst bytes.now e) }
    // All of it in one equation.
    ensures exact { Gives result (script_of bytes.now) }
{
    let mut script = Script::new(alloc);
    let mut number = 1;
    let mut rest = Some(bytes);
    while let Some(text) = rest {
        let (line, after) = cut_line(text);
        take_line(line, number, &mut script)?;
        number += 1;
        rest = after;
    }
    Ok(script)
}
