ghost use Rattle.std.specs.Prelude.{IfOk, IfErr};
ghost use Rattle.td_script.specs.KeptFaults.{IsKeptFault};
ghost use Rattle.td_script.specs.KeptScript.{SpellsKept};

use crate::kept::before::KeptBefore;
use crate::kept::commands::KeptCommands;
use crate::kept::read_line::read_kept_line;
use crate::kind::{Kind, LineFault, ScriptFault};
use crate::line::split_line;
use crate::script::MAX_SCRIPT;
use std::alloc::Global;

/// How many calls of its disk a step of a kept replica makes: a write, a sync, a write and a sync.
pub const DISK_CALLS: u32 = 4;

/// The greatest number of crashes in a kept script: each has a site do its whole history again.
pub const MAX_CRASHES: u64 = 1000;

/// A kept script.
#[derive(Debug, Drop)]
pub struct KeptScript {
    /// How many sites there are: 0 only where there is no command.
    pub sites: u8,
    /// The first is `Sites`, with the same number.
    pub commands: KeptCommands,
}

/// Reads a kept script. Lines count from 1; the fault of a script that is too large is that of line 0.
pub fn read_kept(alloc: Global, bytes: &[u8]) -> Result<KeptScript, ScriptFault>
    ensures ok { IfOk result (λ script. SpellsKept bytes.now script) }
    ensures fault { IfErr result (IsKeptFault bytes.now) }
{
    if bytes.len() > MAX_SCRIPT {
        return Err(ScriptFault::Fault {
            line: 0,
            kind: Kind::Size,
        });
    }
    let mut commands = KeptCommands::new(alloc);
    let mut before = KeptBefore {
        sites: 0,
        requests: 0,
        crashes: 0,
    };
    let mut rest = bytes;
    let mut number = 0;
    while !rest.is_empty() {
        let (line, after) = split_line(rest);
        rest = after;
        number += 1;
        match read_kept_line(alloc, bytes.len(), before, line) {
            Ok(None) => {}
            Ok(Some(command)) => {
                before = before.after(&command);
                commands.push(command)?;
            }
            Err(LineFault::Faulty(kind)) => return Err(ScriptFault::Fault { line: number, kind }),
            Err(LineFault::Memory) => return Err(ScriptFault::Memory),
        }
    }
    Ok(KeptScript {
        sites: before.sites,
        commands,
    })
}
