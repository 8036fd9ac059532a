use std::alloc::AllocError;
use td_base::Memory;
use thiserror::Error;

/// A source or a sink failed, and has counted it.
#[derive(Clone, Copy, Debug, PartialEq, Eq, Error)]
#[error("a source or a sink failed")]
pub struct Failed;

/// Why a source was not read whole.
#[derive(Clone, Copy, Debug, PartialEq, Eq, Error)]
pub enum ReadFault {
    #[error("the source failed")]
    Failed,
    #[error("the source has too many bytes")]
    TooLong,
    #[error("out of memory")]
    Memory,
}

impl From<Failed> for ReadFault {
    ghost use Rattle.std.specs.Prelude.{◌≡◌};
    ghost use Rattle.td_io.specs.declared.fault.ReadFault.{ReadFault};

    ghost from_gives = { λ _ fault. fault ≡ ReadFault.Failed };

    fn from(_failed: Failed) -> ReadFault {
        ReadFault::Failed
    }
}

impl From<Memory> for ReadFault {
    ghost use Rattle.std.specs.Prelude.{◌≡◌};
    ghost use Rattle.td_io.specs.declared.fault.ReadFault.{ReadFault};

    ghost from_gives = { λ _ fault. fault ≡ ReadFault.Memory };

    fn from(_memory: Memory) -> ReadFault {
        ReadFault::Memory
    }
}

/// Why a `MemSink` was not made.
#[derive(Clone, Copy, Debug, PartialEq, Eq, Error)]
pub enum MemSinkFault {
    #[error("out of memory")]
    Memory,
}

impl From<AllocError> for MemSinkFault {
    fn from(_error: AllocError) -> MemSinkFault {
        MemSinkFault::Memory
    }
}
