use td_base::Memory;
use td_io::Failed;

/// Why a step of a kept replica was not done.
#[derive(Clone, Copy, Debug, PartialEq, Eq)]
pub enum KeptFault {
    /// An earlier call failed at the disk: open the journal again.
    Closed,
    /// The record does not fit. `len` is the length up to where it would begin: that of the journal, up to its closed
    /// gate, and of what is staged.
    Full { len: u32 },
    /// The disk failed. What was staged is on it whole, or not at all.
    Disk,
    Memory,
}

impl From<Memory> for KeptFault {
    ghost use Rattle.std.specs.Prelude.{◌≡◌};
    ghost use Rattle.td_journal.specs.declared.fault.KeptFault.{KeptFault};

    ghost from_gives = { λ _ fault. fault ≡ KeptFault.Memory };

    fn from(_memory: Memory) -> KeptFault {
        KeptFault::Memory
    }
}

/// Why a journal was not begun or opened.
#[derive(Clone, Copy, Debug, PartialEq, Eq)]
pub enum OpenFault {
    /// The bytes are no journal of the site. The first part that is none begins at `at`: the byte of the header that
    /// differs, its check, or the gate of the record.
    Bad { at: u32 },
    Disk,
    Memory,
}

impl From<Memory> for OpenFault {
    ghost use Rattle.std.specs.Prelude.{◌≡◌};
    ghost use Rattle.td_journal.specs.declared.fault.OpenFault.{OpenFault};

    ghost from_gives = { λ _ fault. fault ≡ OpenFault.Memory };

    fn from(_memory: Memory) -> OpenFault {
        OpenFault::Memory
    }
}

impl From<Failed> for OpenFault {
    ghost use Rattle.std.specs.Prelude.{◌≡◌};
    ghost use Rattle.td_journal.specs.declared.fault.OpenFault.{OpenFault};

    ghost from_gives = { λ _ fault. fault ≡ OpenFault.Disk };

    fn from(_failed: Failed) -> OpenFault {
        OpenFault::Disk
    }
}

/// A disk that no kept replica was made of, and why.
#[derive(Debug, Drop)]
pub struct Refused<K> {
    pub disk: K,
    pub why: OpenFault,
}

/// Why no journal was made of a replica.
#[derive(Clone, Copy, Debug, PartialEq, Eq)]
pub enum SaveFault {
    /// It would have more bytes than a disk may have.
    Long,
    Memory,
}

impl From<Memory> for SaveFault {
    ghost use Rattle.std.specs.Prelude.{◌≡◌};
    ghost use Rattle.td_journal.specs.declared.fault.SaveFault.{SaveFault};

    ghost from_gives = { λ _ fault. fault ≡ SaveFault.Memory };

    fn from(_memory: Memory) -> SaveFault {
        SaveFault::Memory
    }
}

/// Why no replica was made of the bytes of a journal.
#[derive(Clone, Copy, Debug, PartialEq, Eq)]
pub enum LoadFault {
    /// The bytes are no journal of the site: see `OpenFault`.
    Bad { at: u32 },
    /// They are more than a disk may have.
    Long,
    Memory,
}
