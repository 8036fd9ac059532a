ghost use Rattle.std.specs.Prelude.{◌≡◌, ◌==◌, ◌<◌, ◌≤◌, ◌∷◌, ◌++◌, [], ◌⊎◌, ℕ, List, Err, Ok, false, true, length};
ghost use Rattle.std.specs.Prelude.{position, IfNone, IfOk, IfSome, IsErrOf, OnErr};
ghost use Rattle.std.specs.Io.KnownBytes.{Consumes, IsAtEnd};
ghost use Rattle.td_io.specs.Count.{Rose};
ghost use Rattle.td_script.specs.Characters.{line_feed};
ghost use Rattle.td_shell.specs.Lines.{IsInLine, shortened};

use crate::halt::Halt;
use std::alloc::Global;
use std::marker::Model;
use td_base::{Bytes, Memory};
use td_io::Source;
use td_script::MAX_LINE;

// So many bytes are taken in one call at most.
const PIECE: usize = 4096;

/// The bytes of an input that came and stand on no line that was given. Of a part of a line that is too long no more is
/// kept than shows that.
#[derive(Debug, Drop)]
pub(crate) struct Lines {
    alloc: Global,
    unread: Bytes,
}

impl Model for Lines {
    ghost use Rattle.std.specs.Prelude.{ℕ, List};

    ghost Value = { List ℕ };

    ghost view = { λ l. l.unread };
}

impl Lines {
    /// Nothing came yet. Takes no memory.
    pub(crate) fn new(alloc: Global) -> Lines
        ensures { result ≡ [] }
    {
        Lines {
            alloc,
            unread: Bytes::new(alloc),
        }
    }

    /// The next line that came whole, without its LF.
    pub(crate) fn next(&mut self) -> Result<Option<Bytes>, Memory>
        ensures some { IfOk result (λ next. IfSome next (λ line. IsInLine line
            × (self.old ≡ line ++ line_feed ∷ self.new))) }
        ensures none { IfOk result (λ next. IfNone next (IsInLine self.old × (self.new ≡ self.old))) }
        ensures err { OnErr result (self.new ≡ self.old) }
    {
        let bytes = self.unread.as_slice();
        let place = match line_end(bytes) {
            Some(place) => place,
            None => return Ok(None),
        };
        let mut line = Bytes::new(self.alloc);
        line.push(&bytes[..place])?;
        let mut rest = Bytes::new(self.alloc);
        rest.push(&bytes[place + 1..])?;
        self.unread = rest;
        Ok(Some(line))
    }

    /// Takes more of the input, where no line stands whole; false at its end.
    pub(crate) fn fill<S: Source>(&mut self, source: &mut S) -> Result<bool, Halt>
        ensures more { result ≡ Ok true → (piece : List ℕ)
            × Consumes (S.left source.old) (S.left source.new) piece × (self.new ≡ shortened self.old ++ piece) }
        ensures end { result ≡ Ok false → IsAtEnd (S.left source.old)
            × Consumes (S.left source.old) (S.left source.new) [] × (self.new ≡ self.old) }
        ensures failed { IsErrOf result Halt.Read → Rose (S.faults source.old) (S.faults source.new) }
        ensures lost { OnErr result ((piece : List ℕ) × Consumes (S.left source.old) (S.left source.new) piece) }
        ensures wanting { OnErr result ((result ≡ Err Halt.Read) ⊎ (result ≡ Err Halt.Memory)) }
        ensures count { S.faults source.old ≤ S.faults source.new }
    {
        let mut buf = [0; PIECE];
        let Ok(count) = source.take(&mut buf) else {
            return Err(Halt::Read);
        };
        if count == 0 {
            return Ok(false);
        }
        self.unread.truncate(MAX_LINE + 1);
        match self.unread.push(&buf[..count]) {
            Ok(()) => Ok(true),
            Err(Memory) => Err(Halt::Memory),
        }
    }

    /// What came and stands on no line.
    pub(crate) fn unread(&self) -> &[u8]
        ensures { result.now ≡ self.now }
    {
        self.unread.as_slice()
    }
}

// The place of the first LF.
fn line_end(bytes: &[u8]) -> Option<usize>
    ensures value { result ≡ position (λ byte. byte == line_feed) bytes.now }
    ensures bound { IfSome result (λ place. place < length bytes.now) }
    ensures none { IfNone result (IsInLine bytes.now) }
{
    bytes.iter().position(|byte| *byte == b'\n')
}
