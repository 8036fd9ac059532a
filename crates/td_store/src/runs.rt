ghost use Rattle.std.specs.Prelude.{◌≡◌, ◌≤◌, ◌<◌, ◌+◌, ◌∷◌, ◌++◌, [], length, slice_get, slice_index_or, sum, IfSome, OnErr, OnOk, vec_len, vec_capacity};
ghost use Rattle.td_base.specs.Atom.{IsAtom};
ghost use Rattle.td_base.specs.Run.{IsRun};
ghost use Rattle.td_store.specs.RunsParts.{BeginsWithRun, stored_bytes, stored_run};

use std::alloc::Global;
use std::marker::Model;
use td_base::{MAX_RUN_LEN, Memory, Run};

// The greatest length of a run as it is stored: the number of its atoms, their lengths and their bytes.
const MAX_STORED_LEN: usize = 1 + 2 * MAX_RUN_LEN;

/// A list of runs in one array of bytes; a run of one letter takes 7 bytes. Room for more is made by `reserve` and
/// used up by `push`.
#[derive(Debug, Drop)]
pub struct Runs {
    bytes: Vec<u8>,
    // where in `bytes` each run begins
    starts: Vec<u32>,
    room: u32,
}

impl Model for Runs {
    ghost use Rattle.std.specs.Prelude.{vec_capacity};
    ghost use Rattle.td_store.specs.Lists.{RunsValue};

    ghost Value = { RunsValue };

    ghost use Rattle.td_base.specs.Run.{IsRun};
    ghost use Rattle.td_store.specs.RunsParts.{AreRunsParts, runs_at};

    ghost view = { λ r. record { runs = runs_at r.bytes.items r.starts.items; room = r.room } };

    ghost invariant = { λ r.
        AreRunsParts r.bytes.items r.starts.items r.room (vec_capacity r.bytes) (vec_capacity r.starts) };
}

impl Runs {
    /// No runs, and no room. Takes no memory.
    pub fn new(alloc: Global) -> Runs
        ensures { result ≡ record { runs = []; room = 0 } }
    {
        Runs {
            bytes: Vec::new(alloc),
            starts: Vec::new(alloc),
            room: 0,
        }
    }

    /// Makes room for so many more runs. `Memory` too where their bytes could come to 4 GiB together.
    pub fn reserve(&mut self, more: u32) -> Result<(), Memory>
        ensures ok { OnOk result (more ≤ self.new.room) }
        ensures runs { self.new ≡ record self.old { room = self.new.room } }
        ensures room { self.old.room ≤ self.new.room }
        ensures err { OnErr result (self.new ≡ self.old) }
    {
        let len = more as usize * MAX_STORED_LEN;
        if self.bytes.len() + len > u32::MAX as usize {
            return Err(Memory);
        }
        self.bytes.reserve(len)?;
        self.starts.reserve(more as usize)?;
        self.room = self.room.max(more);
        Ok(())
    }

    /// Adds the run at the end. Takes no memory.
    pub fn push(&mut self, run: &Run)
        requires { 1 ≤ self.old.room }
        ensures runs { self.new.runs ≡ self.old.runs ++ run.now ∷ [] }
        ensures room { self.new.room + 1 ≡ self.old.room }
    {
        self.starts.push(self.bytes.len() as u32).unwrap();
        push_stored(&mut self.bytes, run);
        self.room -= 1;
    }

    /// The run at a place from 0.
    pub fn get(&self, k: u32) -> Option<Run>
        ensures { result ≡ slice_get self.now.runs k }
    {
        if k >= self.len() {
            return None;
        }
        Some(self.at(k))
    }

    /// The run at a place that there is.
    pub fn at(&self, k: u32) -> Run
        requires { k < length self.now.runs }
        ensures { result ≡ slice_index_or self.now.runs k [] }
    {
        let start = self.starts[k as usize];
        read_stored(&self.bytes[start as usize..])
    }

    /// How many runs there are.
    pub fn len(&self) -> u32
        ensures { result ≡ length self.now.runs }
    {
        self.starts.len() as u32
    }
}

// Adds the run as it is stored, in the room that there is.
fn push_stored(bytes: &mut Vec<u8>, run: &Run)
    requires { vec_len bytes.old + MAX_STORED_LEN ≤ vec_capacity bytes.old }
    ensures items { bytes.new.items ≡ bytes.old.items ++ stored_bytes run.now }
    ensures capacity { vec_capacity bytes.old ≤ vec_capacity bytes.new }
    ensures run { IsRun run.now }
{
    let count = run.len();
    let atoms = run.bytes();
    bytes.push(count).unwrap();
    bytes
        .extend_from_slice(&run.lengths()[..count as usize])
        .unwrap();
    bytes.extend_from_slice(atoms).unwrap();
}

// The run that the bytes begin with.
fn read_stored(bytes: &[u8]) -> Run
    requires { BeginsWithRun bytes.now }
    ensures { result ≡ stored_run bytes.now }
{
    let (lengths, atoms) = bytes[1..].split_at(bytes[0] as usize);
    Run::cut(&atoms[..total(lengths)], lengths)
}

fn total(lengths: &[u8]) -> usize
    requires { length lengths.now ≤ MAX_RUN_LEN }
    ensures { result ≡ sum lengths.now }
{
    lengths.iter().map(|n| usize::from(*n)).sum()
}
