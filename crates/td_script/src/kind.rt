ghost use Rattle.std.specs.Prelude.{◌≡◌};
ghost use Rattle.td_script.specs.Kinds.{kind_name};

use std::fmt;
use td_base::Memory;
use thiserror::Error;

/// What is wrong with a line. `Editor`, `Turns`, `Loss` and `Calls` are faults of live scripts alone.
#[derive(Clone, Copy, Debug, PartialEq, Eq)]
pub enum Kind {
    /// The script is too large, or asks for too much.
    Size,
    /// The line has too many bytes.
    Long,
    /// The line is not UTF-8, or has a control character.
    Bytes,
    /// The line begins with no command, or a word is none of those that may stand there.
    Word,
    /// The command `sites` is missing or stands twice, or its number is out of range.
    Sites,
    /// An argument is missing, or something is left behind the last one.
    End,
    /// The argument is no number, or a number out of range.
    Number,
    /// There is no such site.
    Site,
    /// There is no such editor, or there are too many.
    Editor,
    /// `turns` stands twice, or its number is out of range.
    Turns,
    /// `loss` stands twice.
    Loss,
    /// The editors make too many calls.
    Calls,
    /// The argument is no dot of the sites.
    Dot,
    /// The argument is no text up to its closing quote.
    Quote,
    /// A cluster of the text is too long for an atom.
    Atom,
}

impl Kind {
    /// The kind in small letters, as it is printed.
    pub fn name(self) -> &'static str
        ensures { result.now ≡ kind_name self }
    {
        match self {
            Kind::Size => "size",
            Kind::Long => "long",
            Kind::Bytes => "bytes",
            Kind::Word => "word",
            Kind::Sites => "sites",
            Kind::End => "end",
            Kind::Number => "number",
            Kind::Site => "site",
            Kind::Editor => "editor",
            Kind::Turns => "turns",
            Kind::Loss => "loss",
            Kind::Calls => "calls",
            Kind::Dot => "dot",
            Kind::Quote => "quote",
            Kind::Atom => "atom",
        }
    }
}

impl fmt::Display for Kind {
    fn fmt<W: fmt::Write>(&self, f: &mut fmt::Formatter<W>) -> fmt::Result {
        f.write_str(self.name())
    }
}

/// Why bytes were not read as a script.
#[derive(Clone, Copy, Debug, PartialEq, Eq, Error)]
pub enum ScriptFault {
    /// The first faulty line, counted from 1, with the first thing wrong with it. Line 0 is the script as a whole.
    #[error("line {line}: {kind}")]
    Fault { line: u32, kind: Kind },
    /// Want of memory.
    #[error("out of memory")]
    Memory,
}

impl From<Memory> for ScriptFault {
    ghost use Rattle.std.specs.Prelude.{◌≡◌};
    ghost use Rattle.td_script.specs.declared.kind.ScriptFault.TheVariants.{Memory as OutOfMemory};

    ghost from_gives = { λ _ fault. fault ≡ OutOfMemory };

    fn from(_memory: Memory) -> ScriptFault {
        ScriptFault::Memory
    }
}

/// Why a line was not read.
#[derive(Clone, Copy, Debug, PartialEq, Eq, Error)]
pub enum LineFault {
    /// The first thing wrong with it.
    #[error("{0}")]
    Faulty(Kind),
    /// Want of memory.
    #[error("out of memory")]
    Memory,
}

impl From<Kind> for LineFault {
    ghost use Rattle.std.specs.Prelude.{◌≡◌};
    ghost use Rattle.td_script.specs.declared.kind.LineFault.TheVariants.{Faulty};

    ghost from_gives = { λ kind fault. fault ≡ Faulty kind };

    fn from(kind: Kind) -> LineFault {
        LineFault::Faulty(kind)
    }
}

impl From<Memory> for LineFault {
    ghost use Rattle.std.specs.Prelude.{◌≡◌};
    ghost use Rattle.td_script.specs.declared.kind.LineFault.TheVariants.{Memory as OutOfMemory};

    ghost from_gives = { λ _ fault. fault ≡ OutOfMemory };

    fn from(_memory: Memory) -> LineFault {
        LineFault::Memory
    }
}
