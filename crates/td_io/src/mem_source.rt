ghost use Rattle.std.specs.Prelude.{◌≡◌, ◌<◌, ◌≤◌, ◌↔◌, ◌++◌, [], Some, Ok, length, take, drop, min, Contains, IsErr, IfOk, OnErr};
ghost use Rattle.td_io.specs.Count.{counted, end_found};
ghost use Rattle.td_io.specs.Value.{new_source};

use crate::fault::Failed;
use crate::source::{Source, end_found};
use std::alloc::Global;
use std::marker::Model;
use td_base::Memory;

/// A source in memory. It fails exactly at the calls that it is told. Contracts see its bytes to come, and its calls.
#[derive(Debug, Drop)]
pub struct MemSource {
    bytes: Vec<u8>,
    // how many of the bytes were given
    at: usize,
    most: usize,
    fails: Vec<u64>,
    calls: u64,
    faults: u64,
    end: Option<u64>,
}

impl Model for MemSource {
    ghost use Rattle.std.specs.Prelude.{◌<◌, ◌≤◌, drop, length};
    ghost use Rattle.td_io.specs.Value.{SourceValue};

    ghost Value = { SourceValue };

    ghost view = { λ s. record {
      left = drop s.at s.bytes.items;
      most = s.most;
      fails = s.fails.items;
      calls = s.calls;
      faults = s.faults;
      end = s.end;
    } };

    ghost invariant = { λ s. (s.at ≤ length s.bytes.items) × (0 < s.most) };
}

impl MemSource {
    /// Gives these bytes, in one piece where the buffer holds them. `fails` names the calls, from 1, that fail.
    pub fn new(alloc: Global, bytes: &[u8], fails: &[u64]) -> Result<MemSource, Memory>
        ensures { IfOk result (λ s. s ≡ new_source bytes.now usize.MAX fails.now) }
    {
        MemSource::with_pieces(alloc, bytes, usize::MAX, fails)
    }

    /// Gives these bytes, at most `most` in a call.
    pub fn pieces(
        alloc: Global,
        bytes: &[u8],
        most: u32,
        fails: &[u64],
    ) -> Result<MemSource, Memory>
        requires { 0 < most }
        ensures { IfOk result (λ s. s ≡ new_source bytes.now most fails.now) }
    {
        MemSource::with_pieces(alloc, bytes, most as usize, fails)
    }

    fn with_pieces(
        alloc: Global,
        bytes: &[u8],
        most: usize,
        fails: &[u64],
    ) -> Result<MemSource, Memory>
        requires { 0 < most }
        ensures { IfOk result (λ s. s ≡ new_source bytes.now most fails.now) }
    {
        Ok(MemSource {
            bytes: Vec::from_slice(alloc, bytes)?,
            at: 0,
            most,
            fails: Vec::from_slice(alloc, fails)?,
            calls: 0,
            faults: 0,
            end: None,
        })
    }
}

impl Source for MemSource {
    ghost left = { λ s. Some s.left };

    ghost calls = { λ s. s.calls };

    ghost faults = { λ s. s.faults };

    ghost end = { λ s. s.end };

    fn take(&mut self, buf: &mut [u8]) -> Result<usize, Failed>
        requires { 0 < length buf.old }
        ensures cause { IsErr result ↔ Contains self.old.fails (counted self.old.calls) }
        ensures amount { IfOk result (λ k. k ≡ min (length buf.old) (min self.old.most (length self.old.left))) }
        ensures at_end { result ≡ Ok 0 → self.old.left ≡ [] }
        ensures gives { IfOk result (λ k. buf.new ≡ take k self.old.left ++ drop k buf.old) }
        ensures ok { IfOk result (λ k. self.new ≡ record self.old {
          left = drop k self.old.left;
          calls = counted self.old.calls;
          end = end_found self.old.end (counted self.old.calls) k;
        }) }
        ensures err { OnErr result (self.new ≡ record self.old {
          calls = counted self.old.calls;
          faults = counted self.old.faults;
        }) }
        ensures count { self.old.faults ≤ self.new.faults }
    {
        self.calls = self.calls.saturating_add(1);
        if self.fails.contains(&self.calls) {
            self.faults = self.faults.saturating_add(1);
            return Err(Failed);
        }
        let left = &self.bytes[self.at..];
        let count = buf.len().min(self.most).min(left.len());
        buf[..count].copy_from_slice(&left[..count]);
        self.at += count;
        self.end = end_found(self.end, self.calls, count);
        Ok(count)
    }
}
