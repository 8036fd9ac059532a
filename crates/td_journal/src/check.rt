ghost use Rattle.std.specs.Prelude.{◌≡◌, ◌≢◌, ◌++◌, ℕ, List, IfSome, IfNone, OnOk};
ghost use Rattle.td_journal.specs.Journal.{check_of};
ghost use Rattle.td_journal.specs.Check.{bytes_of};

use crate::format::Format;
use td_base::{Bytes, Memory};
use td_crc::{crc32c, crc32c_append};

/// The check at the end of a journal, from which that of the next record goes on.
#[derive(Clone, Copy, Debug, PartialEq, Eq)]
pub(crate) struct Check {
    pub(crate) format: Format,
    // in a journal without checks any number
    crc: u32,
}

impl Check {
    /// That of a header.
    pub(crate) fn new(format: Format, header: &[u8]) -> Check
        ensures bytes { bytes_of result ≡ check_of format header.now }
        ensures format { result.format ≡ format }
    {
        Check {
            format,
            crc: crc32c(header),
        }
    }

    /// The check behind this body of a record.
    pub(crate) fn next(self, body: &[u8]) -> Check
        ensures bytes { bytes_of result ≡ check_of self.format (bytes_of self ++ body.now) }
        ensures format { result.format ≡ self.format }
    {
        Check {
            format: self.format,
            crc: crc32c_append(crc32c(&self.crc.to_be_bytes()), body),
        }
    }

    /// Adds it at the end.
    pub(crate) fn push(self, out: &mut Bytes) -> Result<(), Memory>
        ensures { OnOk result (out.new ≡ out.old ++ bytes_of self) }
    {
        match self.format {
            Format::Plain => Ok(()),
            Format::Checked => out.push(&self.crc.to_be_bytes()),
        }
    }

    /// What stands behind it in the bytes; None where it is not at their front.
    pub(crate) fn strip(self, bytes: &[u8]) -> Option<&[u8]>
        ensures some { IfSome result (λ rest. bytes.now ≡ bytes_of self ++ rest.now) }
        ensures none { IfNone result ((rest : List ℕ) → bytes.now ≢ bytes_of self ++ rest) }
    {
        match self.format {
            Format::Plain => Some(bytes),
            Format::Checked => match bytes {
                [a, b, c, d, rest @ ..] if u32::from_be_bytes([*a, *b, *c, *d]) == self.crc => Some(
                    rest,
                ),
                _ => None,
            },
        }
    }
}
