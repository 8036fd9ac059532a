ghost use Rattle.std.specs.Prelude.{IfOk, IfErr};
ghost use Rattle.td_script.specs.Answers.{IsScriptFault};
ghost use Rattle.td_script.specs.Script.{Spells};

use crate::before::Before;
use crate::commands::Commands;
use crate::kind::{Kind, LineFault, ScriptFault};
use crate::line::split_line;
use crate::read_line::read_line;
use std::alloc::Global;

/// The greatest length of a script in bytes.
pub const MAX_SCRIPT: usize = 1_048_576;

/// The greatest length of a line in bytes, without its LF.
pub const MAX_LINE: usize = 65_536;

/// The greatest length in bytes of a script with more than 16 sites.
pub const MAX_WIDE_SCRIPT: usize = 32_768;

/// The greatest sum of the requests of a script with more than 16 sites.
pub const MAX_WIDE_REQUESTS: u64 = 65_535;

/// The greatest sum of the requests of a script with more than 8 sites.
pub const MAX_MIDDLE_REQUESTS: u64 = 131_072;

/// A script of `play`.
#[derive(Debug, Drop)]
pub struct Script {
    /// How many sites there are: 0 only where there is no command.
    pub sites: u8,
    /// The first is `Sites`, with the same number.
    pub commands: Commands,
}

/// Reads a script. Lines count from 1; the fault of a script that is too large is that of line 0.
pub fn read_script(alloc: Global, bytes: &[u8]) -> Result<Script, ScriptFault>
    ensures ok { IfOk result (λ script. Spells bytes.now script) }
    ensures fault { IfErr result (IsScriptFault bytes.now) }
{
    if bytes.len() > MAX_SCRIPT {
        return Err(ScriptFault::Fault {
            line: 0,
            kind: Kind::Size,
        });
    }
    let mut commands = Commands::new(alloc);
    let mut before = Before {
        sites: 0,
        requests: 0,
    };
    let mut rest = bytes;
    let mut number = 0;
    while !rest.is_empty() {
        let (line, after) = split_line(rest);
        rest = after;
        number += 1;
        match read_line(alloc, bytes.len(), before, line) {
            Ok(None) => {}
            Ok(Some(command)) => {
                before = before.after(&command);
                commands.push(command)?;
            }
            Err(LineFault::Faulty(kind)) => return Err(ScriptFault::Fault { line: number, kind }),
            Err(LineFault::Memory) => return Err(ScriptFault::Memory),
        }
    }
    Ok(Script {
        sites: before.sites,
        commands,
    })
}
