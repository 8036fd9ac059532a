ghost use Rattle.std.specs.Prelude.{◌≡◌};
ghost use Rattle.td_run.specs.Number.{status_number};

/// How a run of the program ended.
#[derive(Clone, Copy, Debug, PartialEq, Eq)]
pub enum Status {
    /// The input was read to its end, or past the bytes that a trace can have, and the whole output was written.
    Done,
    /// Memory ran out. A front of what `play` prints may have been written, and nothing of any other output.
    Memory,
    /// The words are no command, and the usage line was written.
    Usage,
    /// The input is no script, and the line of its fault was written.
    Script,
    /// The input could not be read, and nothing was written.
    Read,
    /// The output could not be written whole.
    Write,
}

impl Status {
    /// The exit status of the program.
    pub fn number(self) -> u8
        ensures { result ≡ status_number self }
    {
        match self {
            Status::Done => 0,
            Status::Memory => 1,
            Status::Usage => 2,
            Status::Script => 3,
            Status::Read => 4,
            Status::Write => 5,
        }
    }
}
