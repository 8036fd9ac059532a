use crate::status::Status;
use td_base::Memory;
use td_journal::KeptFault;

/// Why no further line is done.
#[derive(Clone, Copy, Debug, PartialEq, Eq)]
pub(crate) enum Halt {
    /// Memory ran out.
    Memory,
    /// The input could not be read.
    Read,
    /// An answer could not be written.
    Write,
    /// The journal has no room.
    Full { len: u32 },
    /// The disk failed.
    Disk,
}

impl From<Memory> for Halt {
    ghost use Rattle.std.specs.Prelude.{◌≡◌};
    ghost use Rattle.td_shell.specs.declared.halt.Halt.{Halt};

    ghost from_gives = { λ _ halt. halt ≡ Halt.Memory };

    fn from(_memory: Memory) -> Halt {
        Halt::Memory
    }
}

impl Halt {
    ghost use Rattle.std.specs.Prelude.{◌≡◌};
    ghost use Rattle.td_shell.specs.Wanting.{halt_of, status_of};

    /// What a fault of a kept replica comes to.
    pub(crate) fn of(fault: KeptFault) -> Halt
        ensures { result ≡ halt_of fault }
    {
        match fault {
            KeptFault::Closed | KeptFault::Disk => Halt::Disk,
            KeptFault::Full { len } => Halt::Full { len },
            KeptFault::Memory => Halt::Memory,
        }
    }

    /// How the shell ends.
    pub(crate) fn status(self) -> Status
        ensures { result ≡ status_of self }
    {
        match self {
            Halt::Memory => Status::Memory,
            Halt::Read => Status::Read,
            Halt::Write => Status::Write,
            Halt::Full { len } => Status::Full { len },
            Halt::Disk => Status::Disk,
        }
    }
}
