// A script.
ghost use Rattle.std.specs.Prelude.{◌≡◌, ◌<◌, ◌++◌, ◌∷◌, [], length, slice_get, Some, OnOk, OnErr};
ghost use Rattle.hart_monitor.specs.Spelling.{IsInRange};

use crate::command::Command;
use hart_words::WantOfMemory;
use std::alloc::Global;
use std::marker::Model;

/// A script, seen as a list of commands whose numbers are in their ranges.
#[derive(Drop)]
pub struct Script {
    commands: Vec<Command>,
}

impl Model for Script {
    ghost use Rattle.std.specs.Prelude.{List};
    ghost use Rattle.std.specs.List.{All};
    ghost use Rattle.hart_monitor.specs.Spelling.{IsInRange};
    ghost use Rattle.hart_monitor.specs.declared.command.Command.{Command};

    ghost Value = { List Command };

    ghost view = { λ s. s.commands.items };

    ghost invariant = { λ s. All IsInRange s.commands.items };
}

impl Script {
    /// No command.
    pub(crate) fn new(alloc: Global) -> Script
        ensures { result ≡ [] }
    {
        Script {
            commands: Vec::new(alloc),
        }
    }

    /// Adds a command at the end.
    pub(crate) fn push(&mut self, command: Command) -> Result<(), WantOfMemory>
        requires { IsInRange command }
        ensures ok { OnOk result (self.new ≡ self.old ++ command ∷ []) }
        ensures err { OnErr result (self.new ≡ self.old) }
    {
        Ok(self.commands.push(command)?)
    }

    pub fn len(&self) -> usize
        ensures { result ≡ length self.now }
    {
        self.commands.len()
    }

    pub fn get(&self, i: usize) -> Command
        requires { i < length self.now }
        ensures command { slice_get self.now i ≡ Some result }
        ensures range { IsInRange result }
    {
        self.commands[i]
    }
}
