ghost use Rattle.std.specs.Prelude.{◌≡◌, ◌<◌, ◌≤◌, length, sum, All, IfOk, MatchResult};
ghost use Rattle.td_base.specs.declared.run.TheConstants.{MAX_RUN_LEN};
ghost use Rattle.td_wire.specs.declared.format.Format.TheVariants.{Two};
ghost use Rattle.td_wire.specs.Reading.{Gives, run_at, lengths_at, atoms_at};

use crate::format::Format;
use crate::reader::{Fault, Reader};
use td_base::{MAX_ATOM_LEN, MAX_RUN_LEN, Run};

/// The greatest number of bytes of a run, and so of its atoms.
const MAX_LEN: u8 = MAX_RUN_LEN as u8;

impl<'a> Reader<'a> {
    /// A run of atoms.
    #[tactic(auto, unfolding(crate::specs::Reading::run_at))]
    pub fn run(&mut self, format: Format) -> Result<Run, Fault>
        ensures { Gives result self.new.rest.now (run_at format self.old.rest.now) }
    {
        match format {
            Format::One => {
                let len = self.byte(1, MAX_ATOM_LEN as u8)?;
                let atom = self.atom(len)?;
                Ok(Run::one(atom))
            }
            Format::Two => match self.rest {
                [1, 1, letter, rest @ ..] if *letter < 0x80 => {
                    self.rest = rest;
                    Ok(Run::cut(&[*letter], &[1]))
                }
                _ => self.counted(),
            },
        }
    }

    // How many atoms, and these.
    #[tactic(auto, unfolding(crate::specs::Reading::run_at))]
    fn counted(&mut self) -> Result<Run, Fault>
        ensures { Gives result self.new.rest.now (run_at Two self.old.rest.now) }
    {
        let count = self.byte(1, MAX_LEN)?;
        let lengths = self.lengths(count)?;
        self.atoms(lengths)
    }

    // So many lengths of atoms that have at most `MAX_LEN` bytes together.
    fn lengths(&mut self, count: u8) -> Result<&'a [u8], Fault>
        requires { count ≤ MAX_RUN_LEN }
        ensures read { let read = lengths_at count MAX_RUN_LEN self.old.rest.now in
            MatchResult result (λ lengths. read ≡ Ok (lengths.now, self.new.rest.now))
            (λ fault. read ≡ Err fault.left) }
        ensures count { IfOk result (λ lengths. length lengths.now ≡ count) }
        ensures each { IfOk result (λ lengths. All (λ len. 1 ≤ len) lengths.now) }
        ensures together { IfOk result (λ lengths. sum lengths.now ≤ MAX_RUN_LEN) }
    {
        let bytes = self.rest;
        let mut room = MAX_LEN;
        for i in 0..count {
            // each atom behind this one has a byte at least
            let behind = count - i - 1;
            room -= self.byte(1, room - behind)?;
        }
        Ok(&bytes[..count as usize])
    }

    // The atoms with these lengths, one after another.
    fn atoms(&mut self, lengths: &[u8]) -> Result<Run, Fault>
        requires some { 0 < length lengths.now }
        requires few { length lengths.now ≤ MAX_RUN_LEN }
        requires each { All (λ len. 1 ≤ len) lengths.now }
        requires together { sum lengths.now ≤ MAX_RUN_LEN }
        ensures { Gives result self.new.rest.now (atoms_at lengths.now self.old.rest.now) }
    {
        let len = bytes_together(lengths);
        // ASCII is text wherever it is cut
        if len <= self.rest.len() && self.rest[..len].is_ascii() {
            let (bytes, rest) = self.rest.split_at(len);
            self.rest = rest;
            return Ok(Run::cut(bytes, lengths));
        }
        self.texts(lengths)
    }

    // The atoms with these lengths, read character by character.
    fn texts(&mut self, lengths: &[u8]) -> Result<Run, Fault>
        requires some { 0 < length lengths.now }
        requires few { length lengths.now ≤ MAX_RUN_LEN }
        requires each { All (λ len. 1 ≤ len) lengths.now }
        requires together { sum lengths.now ≤ MAX_RUN_LEN }
        ensures { Gives result self.new.rest.now (atoms_at lengths.now self.old.rest.now) }
    {
        let bytes = self.rest;
        for len in lengths {
            self.text(*len)?;
        }
        let end = bytes.len() - self.rest.len();
        Ok(Run::cut(&bytes[..end], lengths))
    }
}

// How many bytes the atoms with these lengths have.
fn bytes_together(lengths: &[u8]) -> usize
    requires { length lengths.now ≤ MAX_RUN_LEN }
    ensures { result ≡ sum lengths.now }
{
    lengths.iter().map(|len| usize::from(*len)).sum()
}
