use td_base::Memory;
use thiserror::Error;

/// Why a call made no step, or told nothing. The session is as it was.
#[derive(Clone, Copy, Debug, PartialEq, Eq, Error)]
pub enum Fault {
    #[error("out of memory")]
    Memory,
    /// No site: 1 to the number of sites, of which there are up to `td_base::MAX_SITE`.
    #[error("there is no such site")]
    Site,
    /// No atom: 1 to `td_base::MAX_ATOM_LEN` bytes of UTF-8.
    #[error("the bytes are no atom")]
    Atom,
    /// No text to paste: it is empty, or no UTF-8, or has a grapheme cluster that is no atom.
    #[error("the bytes are no text")]
    Text,
    /// No name of an operation: a site, and a number from 1 to `td_base::MAX_SEQ`.
    #[error("no operation has such a name")]
    Dot,
    /// No packet: the longest front of the bytes that is the front of one has `at` bytes.
    #[error("the bytes are no packet from byte {at} on")]
    Packet { at: u32 },
    /// No stretch of the text: it ends before it begins, or past the atoms.
    #[error("the text has no such stretch")]
    Stretch,
    /// No place in the text: it is past the end.
    #[error("the text has no such place")]
    Place,
    /// No journal of the site: the first part of the bytes that is none begins at `at`, the byte of the header that
    /// differs, or the beginning of a record.
    #[error("the bytes are no journal of the site from byte {at} on")]
    Journal { at: u32 },
    /// The journal has more than `td_disk::MAX_DISK_LEN` bytes, or would have.
    #[error("the journal is too long")]
    Long,
}

impl From<Memory> for Fault {
    ghost use Rattle.std.specs.Prelude.{◌≡◌};
    ghost use Rattle.td_session.specs.declared.fault.Fault.TheVariants.{Memory as OutOfMemory};

    ghost from_gives = { λ _ fault. fault ≡ OutOfMemory };

    fn from(_memory: Memory) -> Fault {
        Fault::Memory
    }
}
