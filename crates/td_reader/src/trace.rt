ghost use Rattle.std.specs.Prelude.{◌≡◌, ◌≤◌, length, IfErr, IfOk};
ghost use Rattle.td_reader.specs.Answers.{IsReadTraceFault};
ghost use Rattle.td_reader.specs.Form.{IsTraceOf};

use crate::parts::Parts;
use crate::places::ReadTrace;
use crate::reached::Reached;
use crate::read_line::line;
use std::alloc::Global;
use thiserror::Error;

/// The greatest length of a trace in bytes.
pub const MAX_TRACE: usize = 536_870_912;

/// Why bytes were not read as a trace.
#[derive(Clone, Copy, Debug, PartialEq, Eq, Error)]
pub enum ReadTraceFault {
    /// The line with this number, from 1, is the first that is not of the form of a trace. It is the line behind the
    /// last where the end is missing.
    #[error("line {line} is not of the form of a trace")]
    Form { line: u32 },
    /// There was no memory.
    #[error("out of memory")]
    Memory,
}

/// Reads a trace, of at most `MAX_TRACE` bytes. Takes 4 bytes of memory for each line, and 4 more for each site and for
/// each editor.
pub fn read_trace(alloc: Global, bytes: &[u8]) -> Result<ReadTrace<'_>, ReadTraceFault>
    requires { length bytes.now ≤ MAX_TRACE }
    ensures ok { IfOk result (λ trace. IsTraceOf bytes.now trace) }
    ensures fault { IfErr result (IsReadTraceFault bytes.now) }
{
    let mut starts = Vec::new(alloc);
    let mut parts = Parts::new(alloc);
    let mut reached = Reached::nothing();
    let mut rest = bytes;
    while !rest.is_empty() {
        let number = starts.len() as u32 + 1;
        let Some((read, behind)) = line(rest) else {
            return Err(ReadTraceFault::Form { line: number });
        };
        let Some(next) = reached.by(&read) else {
            return Err(ReadTraceFault::Form { line: number });
        };
        let Ok(()) = parts.note(&read, number - 1) else {
            return Err(ReadTraceFault::Memory);
        };
        let start = bytes.len() - rest.len();
        let Ok(()) = starts.push(start as u32) else {
            return Err(ReadTraceFault::Memory);
        };
        reached = next;
        rest = behind;
    }
    if !reached.is_ended() {
        let number = starts.len() as u32 + 1;
        return Err(ReadTraceFault::Form { line: number });
    }
    let sites = reached.sites();
    let texts = starts.len() - usize::from(sites) - 1;
    let Ok(()) = parts.push(texts as u32) else {
        return Err(ReadTraceFault::Memory);
    };
    Ok(ReadTrace::of(bytes, starts, parts, sites))
}
