ghost use Rattle.std.specs.Prelude.{IfOk, IfErr};
ghost use Rattle.td_script.specs.LiveFaults.{IsLiveFault};
ghost use Rattle.td_script.specs.LiveScript.{SpellsLive};

use crate::kind::{Kind, LineFault, ScriptFault};
use crate::line::split_line;
use crate::live::before::LiveBefore;
use crate::live::homes::Homes;
use crate::live::lines_by_editor::LinesByEditor;
use crate::live::read_line::read_live_line;
use std::alloc::Global;

/// The greatest length of a live script in bytes.
pub const MAX_LIVE_SCRIPT: usize = 262_144;

/// The greatest number of turns of an actor.
pub const MAX_TURNS: u32 = 100_000;

/// The turns of each actor where a live script does not say how many.
pub const DEFAULT_TURNS: u32 = 1000;

/// The greatest number of editors.
pub const MAX_EDITORS: u32 = 64;

/// The greatest number of calls of one editor.
pub const MAX_CALLS: u32 = 65_535;

/// The greatest number of calls of all editors together.
pub const MAX_ALL_CALLS: u32 = 262_144;

/// Which packets for one peer are lost and which are sent twice, by their numbers; 0 is never.
#[derive(Clone, Copy, Debug, PartialEq, Eq)]
pub struct Loss {
    /// Each packet whose number it divides is lost.
    pub drop_each: u32,
    /// Each other packet whose number it divides is sent twice.
    pub double_each: u32,
}

/// No packet is lost or sent twice.
pub const NO_LOSS: Loss = Loss {
    drop_each: 0,
    double_each: 0,
};

/// A live script.
#[derive(Debug, Drop)]
pub struct Live {
    /// How many sites there are: 0 only where there is no command.
    pub sites: u8,
    /// The turns of each actor, at most `MAX_TURNS`.
    pub turns: u32,
    /// What the links between workers lose and double.
    pub loss: Loss,
    /// The site of each editor.
    pub homes: Homes,
    /// The lines of each editor.
    pub lines: LinesByEditor,
}

/// Reads a live script. Lines count from 1; the fault of a script that is too large is that of line 0.
pub fn read_live(alloc: Global, bytes: &[u8]) -> Result<Live, ScriptFault>
    ensures ok { IfOk result (λ live. SpellsLive bytes.now live) }
    ensures fault { IfErr result (IsLiveFault bytes.now) }
{
    if bytes.len() > MAX_LIVE_SCRIPT {
        return Err(ScriptFault::Fault {
            line: 0,
            kind: Kind::Size,
        });
    }
    let mut before = LiveBefore::new(alloc);
    let mut rest = bytes;
    let mut number = 0;
    while !rest.is_empty() {
        let (line, after) = split_line(rest);
        rest = after;
        number += 1;
        match read_live_line(alloc, bytes.len(), &before, line) {
            Ok(None) => {}
            Ok(Some(command)) => before.put(alloc, command)?,
            Err(LineFault::Faulty(kind)) => return Err(ScriptFault::Fault { line: number, kind }),
            Err(LineFault::Memory) => return Err(ScriptFault::Memory),
        }
    }
    Ok(before.into_live())
}
