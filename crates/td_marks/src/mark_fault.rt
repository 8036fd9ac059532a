use td_base::Memory;
use thiserror::Error;

/// Why no mark is made: the first of these that applies. All is as before then.
#[derive(Clone, Copy, Debug, PartialEq, Eq, Error)]
pub enum MarkFault {
    /// No atoms are meant, or some past the last of `len` live ones.
    #[error("the text has {len} letters, and not those that are to be marked")]
    Position { len: u32 },
    /// More than `MAX_ATOMS` atoms are meant.
    #[error("{count} letters are too many for one mark")]
    Wide { count: u32 },
    /// The site has made as many marks as dots can number.
    #[error("the site has made {made} marks, and can make no more")]
    Limit { made: u32 },
    /// Want of memory.
    #[error("out of memory")]
    Memory,
}

impl From<Memory> for MarkFault {
    ghost use Rattle.std.specs.Prelude.{◌≡◌};
    ghost use Rattle.td_marks.specs.declared.mark_fault.MarkFault.TheVariants.{Memory as OutOfMemory};

    ghost from_gives = { λ _ fault. fault ≡ OutOfMemory };

    fn from(_memory: Memory) -> MarkFault {
        MarkFault::Memory
    }
}
