ghost use Rattle.std.specs.Prelude.{◌≡◌, ◌<◌, ◌≤◌, None, Ok, length, IfNone, IfOk, OnOk, OnErr};
ghost use Rattle.std.specs.Io.{ReadsAtMost};
ghost use Rattle.std.specs.Io.KnownBytes.{ReadConsumes, IsAtEnd};
ghost use Rattle.td_io.specs.Count.{counted, end_found};

use crate::fault::Failed;
use crate::source::{Source, end_found};
use std::io::{Error, Read};
use std::marker::Model;

/// A source that reads from a reader, and counts each of its errors. The bytes to come are those that the reader tells.
#[derive(Drop)]
pub struct ReadSource<R: Read> {
    reader: R,
    calls: u64,
    faults: u64,
    end: Option<u64>,
    // the last error
    error: Option<Error>,
}

impl<R: Read> Model for ReadSource<R> {
    ghost use Rattle.std.specs.Prelude.{◌≡◌, IfNone};
    ghost use Rattle.td_io.specs.Value.{ReaderValue};

    ghost Value = { ReaderValue R };

    ghost view = { λ s. record { inner = s.reader; calls = s.calls; faults = s.faults; end = s.end } };

    ghost invariant = { λ s. IfNone s.error (s.faults ≡ 0) };
}

impl<R: Read> ReadSource<R> {
    /// A source before this reader, of which no call was made.
    pub fn new(reader: R) -> ReadSource<R>
        ensures { result ≡ record { inner = reader; calls = 0; faults = 0; end = None } }
    {
        ReadSource {
            reader,
            calls: 0,
            faults: 0,
            end: None,
            error: None,
        }
    }

    /// The error of the last call that failed, for a person to read.
    pub fn error(&self) -> Option<Error>
        ensures { IfNone result (self.now.faults ≡ 0) }
    {
        self.error
    }
}

impl<R: Read> Source for ReadSource<R> {
    ghost left = { λ s. R.remaining s.inner };

    ghost calls = { λ s. s.calls };

    ghost faults = { λ s. s.faults };

    ghost end = { λ s. s.end };

    /// One read.
    fn take(&mut self, buf: &mut [u8]) -> Result<usize, Failed>
        requires { 0 < length buf.old }
        ensures within { ReadsAtMost result buf.new }
        ensures read { ReadConsumes (R.remaining self.old.inner) (R.remaining self.new.inner) result buf.new }
        ensures at_end { result ≡ Ok 0 → IsAtEnd (R.remaining self.old.inner) }
        ensures ok { OnOk result (self.new.faults ≡ self.old.faults) }
        ensures err { OnErr result (self.new.faults ≡ counted self.old.faults) }
        ensures count { self.old.faults ≤ self.new.faults }
        ensures called { self.new.calls ≡ counted self.old.calls }
        ensures found { IfOk result (λ k. self.new.end ≡ end_found self.old.end self.new.calls k) }
        ensures searched { OnErr result (self.new.end ≡ self.old.end) }
    {
        self.calls = self.calls.saturating_add(1);
        match self.reader.read(buf) {
            Ok(count) => {
                self.end = end_found(self.end, self.calls, count);
                Ok(count)
            }
            Err(error) => {
                self.faults = self.faults.saturating_add(1);
                self.error = Some(error);
                Err(Failed)
            }
        }
    }
}
