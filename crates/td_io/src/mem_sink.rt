ghost use Rattle.std.specs.Prelude.{◌≡◌, ◌<◌, ◌≤◌, ◌-◌, ◌↔◌, ◌⊎◌, ◌++◌, [], Some, length, take, min, Contains, IsErr, IfOk, OnErr};
ghost use Rattle.td_io.specs.Count.{counted};
ghost use Rattle.td_io.specs.Value.{new_sink};

use crate::fault::{Failed, MemSinkFault};
use crate::sink::Sink;
use std::alloc::Global;
use std::marker::Model;

/// A sink in memory, with room for so many bytes. It fails exactly at the calls that it is told, and where it is full.
/// Contracts see the bytes that it took, and its calls.
#[derive(Debug, Drop)]
pub struct MemSink {
    // has room for `space` bytes from the beginning
    held: Vec<u8>,
    space: usize,
    most: usize,
    fails: Vec<u64>,
    calls: u64,
    faults: u64,
}

impl Model for MemSink {
    ghost use Rattle.std.specs.Prelude.{◌<◌, ◌≤◌, length, vec_capacity};
    ghost use Rattle.td_io.specs.Value.{SinkValue};

    ghost Value = { SinkValue };

    ghost view = { λ s. record {
      held = s.held.items;
      space = s.space;
      most = s.most;
      fails = s.fails.items;
      calls = s.calls;
      faults = s.faults;
    } };

    ghost invariant = { λ s. (length s.held.items ≤ s.space) × (s.space ≤ vec_capacity s.held) × (0 < s.most) };
}

impl MemSink {
    /// Takes the memory for `space` bytes. `fails` names the calls, from 1, that fail.
    pub fn new(alloc: Global, space: u32, fails: &[u64]) -> Result<MemSink, MemSinkFault>
        ensures { IfOk result (λ s. s ≡ new_sink space usize.MAX fails.now) }
    {
        MemSink::with_pieces(alloc, space, usize::MAX, fails)
    }

    /// Takes at most `most` bytes in a call.
    pub fn pieces(
        alloc: Global,
        space: u32,
        most: u32,
        fails: &[u64],
    ) -> Result<MemSink, MemSinkFault>
        requires { 0 < most }
        ensures { IfOk result (λ s. s ≡ new_sink space most fails.now) }
    {
        MemSink::with_pieces(alloc, space, most as usize, fails)
    }

    fn with_pieces(
        alloc: Global,
        space: u32,
        most: usize,
        fails: &[u64],
    ) -> Result<MemSink, MemSinkFault>
        requires { 0 < most }
        ensures { IfOk result (λ s. s ≡ new_sink space most fails.now) }
    {
        let space = space as usize;
        Ok(MemSink {
            held: Vec::with_capacity(alloc, space)?,
            space,
            most,
            fails: Vec::from_slice(alloc, fails)?,
            calls: 0,
            faults: 0,
        })
    }

    /// What it took.
    pub fn held(&self) -> &[u8]
        ensures held { result.now ≡ self.now.held }
        ensures within { length self.now.held ≤ self.now.space }
    {
        &self.held
    }
}

impl Sink for MemSink {
    ghost held = { λ s. Some s.held };

    ghost faults = { λ s. s.faults };

    /// Takes no memory.
    fn put(&mut self, bytes: &[u8]) -> Result<usize, Failed>
        requires { 0 < length bytes.now }
        ensures cause { IsErr result
            ↔ (Contains self.old.fails (counted self.old.calls) ⊎ (length self.old.held ≡ self.old.space)) }
        ensures amount { IfOk result (λ k. k ≡ min (length bytes.now)
            (min self.old.most (self.old.space - length self.old.held))) }
        ensures some { IfOk result (λ k. 0 < k) }
        ensures ok { IfOk result (λ k. self.new ≡ record self.old {
          held = self.old.held ++ take k bytes.now;
          calls = counted self.old.calls;
        }) }
        ensures err { OnErr result (self.new ≡ record self.old {
          calls = counted self.old.calls;
          faults = counted self.old.faults;
        }) }
        ensures count { self.old.faults ≤ self.new.faults }
    {
        self.calls = self.calls.saturating_add(1);
        let room = self.space - self.held.len();
        if room == 0 || self.fails.contains(&self.calls) {
            self.faults = self.faults.saturating_add(1);
            return Err(Failed);
        }
        let count = bytes.len().min(self.most).min(room);
        // within the capacity, so no memory is taken
        self.held.extend_from_slice(&bytes[..count]).unwrap();
        Ok(count)
    }
}
