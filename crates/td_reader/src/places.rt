ghost use Rattle.std.specs.Prelude.{◌≡◌, ◌<◌, ◌^◌, MatchOption, None, Some, length, slice_get};
ghost use Rattle.td_reader.specs.Form.{IsTraceOf, said};
ghost use Rattle.td_reader.specs.LineNumbers.{line_of_end};
ghost use Rattle.td_reader.specs.Parts.{begins_of, part_sizes};
ghost use Rattle.td_reader.specs.Places.{HasPartsAt};
ghost use Rattle.td_reader.specs.Said.{said_by};
ghost use Rattle.td_reader.specs.Values.{IsTraceValue};

use crate::line::ReadLine;
use crate::parts::Parts;
use crate::read_line::line;
use std::marker::Model;

/// A trace over the bytes that it is written in. It keeps where each line begins and at which lines its parts do, and
/// reads a line again when it is asked for. Contracts see what the trace tells.
#[derive(Debug, Drop)]
pub struct ReadTrace<'a> {
    bytes: &'a [u8],
    starts: Vec<u32>,
    parts: Parts,
    sites: u8,
}

impl<'a> Model for ReadTrace<'a> {
    ghost use Rattle.td_reader.specs.Places.{HasPartsAt, value_at};
    ghost use Rattle.td_reader.specs.Values.{TraceValue};

    ghost Value = { TraceValue };

    ghost view = { λ r. value_at r.bytes.now r.starts.items };

    ghost invariant = { λ r. HasPartsAt r.bytes.now r.starts.items r.parts r.sites };
}

impl<'a> ReadTrace<'a> {
    /// The trace that the bytes are, whose lines begin at these places, and its parts at these lines.
    pub(crate) fn of(bytes: &'a [u8], starts: Vec<u32>, parts: Parts, sites: u8) -> ReadTrace<'a>
        requires { HasPartsAt bytes.now starts.items parts sites }
        ensures { IsTraceOf bytes.now result }
    {
        ReadTrace {
            bytes,
            starts,
            parts,
            sites,
        }
    }

    /// The line at this place, from 0. None from the number of lines on. Takes no memory.
    pub fn line(&self, k: usize) -> Option<ReadLine<'a>>
        ensures { MatchOption result (slice_get (said self.now) k ≡ None)
            (λ line. slice_get (said self.now) k ≡ Some (said_by line)) }
    {
        let Some(start) = self.starts.get(k) else {
            return None;
        };
        let (_, rest) = self.bytes.split_at(*start as usize);
        let Some((read, _)) = line(rest) else {
            return None;
        };
        Some(read)
    }

    /// How many sites there are. Takes no memory.
    pub fn sites(&self) -> u8
        ensures sites { result ≡ self.now.sites }
        ensures value { IsTraceValue self.now }
    {
        self.sites
    }

    /// The number of the last line, from 1. Takes no memory.
    pub fn line_of_end(&self) -> u32
        ensures { result ≡ line_of_end self.now }
    {
        self.starts.len() as u32
    }

    /// How many histories and editors there are.
    pub(crate) fn parts(&self) -> usize
        ensures { result ≡ length (part_sizes self.now) }
    {
        self.parts.len() - 1
    }

    /// The line, from 0, at which a part begins.
    pub(crate) fn begin(&self, part: usize) -> Option<u32>
        ensures begin { result ≡ slice_get (begins_of 1 (part_sizes self.now)) part }
        ensures value { IsTraceValue self.now }
        ensures few { length (said self.now) < 2 ^ 32 }
    {
        self.parts.begin(part)
    }

    /// How many lines a part has below its first.
    pub(crate) fn size(&self, part: usize) -> Option<u32>
        ensures { result ≡ slice_get (part_sizes self.now) part }
    {
        if part >= self.parts() {
            return None;
        }
        let begin = self.begin(part)?;
        let end = self.begin(part + 1)?;
        Some(end - begin - 1)
    }
}
