ghost use Rattle.std.specs.Prelude.{◌≡◌, ◌++◌, ◌∷◌, [], OnOk, OnErr};

use crate::command::Command;
use std::alloc::Global;
use std::marker::Model;
use td_base::Memory;

/// The commands of a script, in order.
#[derive(Debug, Drop)]
pub struct Commands {
    items: Vec<Command>,
}

impl Model for Commands {
    ghost use Rattle.std.specs.Prelude.{List};
    ghost use Rattle.td_script.specs.declared.command.Command.{Command};

    ghost Value = { List Command };

    ghost view = { λ c. c.items.items };
}

impl Commands {
    /// No commands. Takes no memory.
    pub fn new(alloc: Global) -> Commands
        ensures { result ≡ [] }
    {
        Commands {
            items: Vec::new(alloc),
        }
    }

    /// Adds the command at the end.
    pub fn push(&mut self, command: Command) -> Result<(), Memory>
        ensures ok { OnOk result (self.new ≡ self.old ++ command ∷ []) }
        ensures err { OnErr result (self.new ≡ self.old) }
    {
        self.items.push(command)?;
        Ok(())
    }

    /// The commands, in order.
    pub fn as_slice(&self) -> &[Command]
        ensures { result.now ≡ self.now }
    {
        &self.items
    }
}
