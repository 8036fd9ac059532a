ghost use Rattle.std.specs.Prelude.{◌≡◌, ◌≤◌, IfOk};
ghost use Rattle.td_gen.specs.Generator.{generated};

use crate::progress::Progress;
use std::alloc::Global;
use td_base::Memory;
use td_script::{Command, Script};

/// The greatest number of edits of a generated script.
pub const MAX_SIZE: u32 = 50_000;

/// How many sites a generated script has.
pub(crate) const SITES: u8 = 3;

/// The script of so many edits that the words of Pcg32 of this number give (O'Neill 2014; stream 54).
pub fn script_of(alloc: Global, size: u32, number: u64) -> Result<Script, Memory>
    requires { size ≤ MAX_SIZE }
    ensures { IfOk result (λ script. script ≡ generated size number) }
{
    let mut progress = Progress::begin(alloc, number)?;
    for done in 0..size {
        progress.turn(alloc, done)?;
    }
    progress.commands.push(Command::Settle)?;
    Ok(Script {
        sites: SITES,
        commands: progress.commands,
    })
}
