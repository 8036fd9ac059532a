ghost use Rattle.std.specs.Prelude.{◌≡◌, ◌<◌, ◌≤◌, None, length, IfNone, IfOk, OnOk, OnErr};
ghost use Rattle.std.specs.Io.KnownBytes.{WriteAppends};
ghost use Rattle.td_io.specs.Count.{counted};

use crate::fault::Failed;
use crate::sink::Sink;
use std::io::{Error, ErrorKind, Write};
use std::marker::Model;

/// A sink that writes to a writer, and counts each of its errors, and each write that takes nothing. The bytes that it
/// took are those that the writer tells.
#[derive(Drop)]
pub struct WriteSink<W: Write> {
    writer: W,
    faults: u64,
    // the last error
    error: Option<Error>,
}

impl<W: Write> Model for WriteSink<W> {
    ghost use Rattle.std.specs.Prelude.{◌≡◌, IfNone};
    ghost use Rattle.td_io.specs.Value.{WriterValue};

    ghost Value = { WriterValue W };

    ghost view = { λ s. record { inner = s.writer; faults = s.faults } };

    ghost invariant = { λ s. IfNone s.error (s.faults ≡ 0) };
}

impl<W: Write> WriteSink<W> {
    /// A sink before this writer, of which no call was made.
    pub fn new(writer: W) -> WriteSink<W>
        ensures { result ≡ record { inner = writer; faults = 0 } }
    {
        WriteSink {
            writer,
            faults: 0,
            error: None,
        }
    }

    /// The error of the last call that failed, for a person to read.
    pub fn error(&self) -> Option<Error>
        ensures { IfNone result (self.now.faults ≡ 0) }
    {
        self.error
    }
}

impl<W: Write> Sink for WriteSink<W> {
    ghost held = { λ s. W.contents s.inner };

    ghost faults = { λ s. s.faults };

    /// One write.
    fn put(&mut self, bytes: &[u8]) -> Result<usize, Failed>
        requires { 0 < length bytes.now }
        ensures some { IfOk result (λ k. 0 < k) }
        ensures within { IfOk result (λ k. k ≤ length bytes.now) }
        ensures write { WriteAppends (W.contents self.old.inner) (W.contents self.new.inner) result bytes.now }
        ensures ok { OnOk result (self.new.faults ≡ self.old.faults) }
        ensures err { OnErr result (self.new.faults ≡ counted self.old.faults) }
        ensures count { self.old.faults ≤ self.new.faults }
    {
        let error = match self.writer.write(bytes) {
            Ok(count) if count > 0 => return Ok(count),
            Ok(_) => Error::from(ErrorKind::WriteZero),
            Err(error) => error,
        };
        self.faults = self.faults.saturating_add(1);
        self.error = Some(error);
        Err(Failed)
    }
}
