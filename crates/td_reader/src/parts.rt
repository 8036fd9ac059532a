ghost use Rattle.std.specs.Prelude.{◌≡◌, ◌∷◌, ◌++◌, [], OnOk, length, slice_get, if◌then◌else◌};
ghost use Rattle.td_reader.specs.Parts.{is_heading};
ghost use Rattle.td_reader.specs.Said.{said_by};

use crate::line::ReadLine;
use std::alloc::Global;
use std::marker::Model;
use td_base::Memory;

/// At which lines of a trace, from 0, its parts begin: each history with its `site` line, what each editor did with its
/// `editor` line, and at last the texts.
#[derive(Debug, Drop)]
pub(crate) struct Parts {
    begins: Vec<u32>,
}

impl Model for Parts {
    ghost use Rattle.std.specs.Prelude.{ℕ, List};

    ghost Value = { List ℕ };

    ghost view = { λ p. p.begins.items };
}

impl Parts {
    /// No part. Takes no memory.
    pub(crate) fn new(alloc: Global) -> Parts
        ensures { result ≡ [] }
    {
        Parts {
            begins: Vec::new(alloc),
        }
    }

    /// Takes note of a line, which is the one with this number.
    pub(crate) fn note(&mut self, line: &ReadLine<'_>, number: u32) -> Result<(), Memory>
        ensures { OnOk result (self.new
            ≡ (if is_heading (said_by line.now) then self.old ++ number ∷ [] else self.old)) }
    {
        if line.is_heading() {
            self.push(number)?;
        }
        Ok(())
    }

    /// One more, which begins at the line with this number.
    pub(crate) fn push(&mut self, number: u32) -> Result<(), Memory>
        ensures { OnOk result (self.new ≡ self.old ++ number ∷ []) }
    {
        self.begins.push(number)?;
        Ok(())
    }

    /// How many there are.
    pub(crate) fn len(&self) -> usize
        ensures { result ≡ length self.now }
    {
        self.begins.len()
    }

    /// Where the part with this number, from 0, begins.
    pub(crate) fn begin(&self, part: usize) -> Option<u32>
        ensures { result ≡ slice_get self.now part }
    {
        self.begins.get(part).copied()
    }
}
