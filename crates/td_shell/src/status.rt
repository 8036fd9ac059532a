ghost use Rattle.std.specs.Prelude.{◌≡◌};
ghost use Rattle.td_shell.specs.Number.{status_number};

/// How a shell ended.
#[derive(Clone, Copy, Debug, PartialEq, Eq)]
pub enum Status {
    /// The input was read to its end, and each line was answered.
    Done,
    /// Memory ran out.
    Memory,
    /// The words name no journal of a site.
    Usage,
    /// The input could not be read.
    Read,
    /// The output could not be written.
    Write,
    /// The journal has no room for a line: its next record would begin at `len`.
    Full { len: u32 },
    /// The file is no journal of the site: the first part that is none begins at `at`.
    Bad { at: u32 },
    /// The disk failed. What the last line did may be on it, and was not answered.
    Disk,
}

impl Status {
    /// The exit status of the program.
    pub fn number(self) -> u8
        ensures { result ≡ status_number self }
    {
        match self {
            Status::Done => 0,
            Status::Memory => 1,
            Status::Usage => 2,
            Status::Read => 4,
            Status::Write => 5,
            Status::Full { .. } => 6,
            Status::Bad { .. } => 7,
            Status::Disk => 8,
        }
    }
}
