ghost use Rattle.std.specs.Prelude.{◌≡◌, ◌++◌, ◌∷◌, [], OnOk, OnErr};

use crate::kept::command::KeptCommand;
use std::alloc::Global;
use std::marker::Model;
use td_base::Memory;

/// The commands of a kept script, in order.
#[derive(Debug, Drop)]
pub struct KeptCommands {
    items: Vec<KeptCommand>,
}

impl Model for KeptCommands {
    ghost use Rattle.std.specs.Prelude.{List};
    ghost use Rattle.td_script.specs.declared.kept.command.KeptCommand.{KeptCommand};

    ghost Value = { List KeptCommand };

    ghost view = { λ c. c.items.items };
}

impl KeptCommands {
    /// No commands. Takes no memory.
    pub fn new(alloc: Global) -> KeptCommands
        ensures { result ≡ [] }
    {
        KeptCommands {
            items: Vec::new(alloc),
        }
    }

    /// Adds the command at the end.
    pub fn push(&mut self, command: KeptCommand) -> Result<(), Memory>
        ensures ok { OnOk result (self.new ≡ self.old ++ command ∷ []) }
        ensures err { OnErr result (self.new ≡ self.old) }
    {
        self.items.push(command)?;
        Ok(())
    }

    /// The commands, in order.
    pub fn as_slice(&self) -> &[KeptCommand]
        ensures { result.now ≡ self.now }
    {
        &self.items
    }
}
