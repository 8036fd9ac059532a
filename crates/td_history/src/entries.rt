ghost use Rattle.std.specs.Prelude.{◌≡◌, ◌≤◌, ◌-◌, ◌∷◌, ◌++◌, [], List, length, IfSome, OnOk};
ghost use Rattle.std.specs.List.{slice_get};
ghost use Rattle.std.specs.Option.{option_and_then};
ghost use Rattle.td_op.specs.declared.entry.Entry.{Entry};
ghost use Rattle.td_history.specs.Past.{IsDoneAs};
ghost use Rattle.td_history.specs.Standing.{StandFor};
ghost use Rattle.td_history.specs.Entries.{entry_of};

use crate::aside::Aside;
use crate::entry::{CompactEntry, keep_entry};
use crate::log::Log;
use crate::ramps::Ramps;
use std::alloc::Global;
use std::marker::Model;
use td_base::Memory;
use td_op::{Entry, Input, Reply};

/// The entries of a history: those by the number of an operation, and what they keep beside themselves. There is room
/// for so many more entries.
#[derive(Drop)]
pub struct Entries {
    entries: Ramps<CompactEntry>,
    aside: Aside,
    room: u32,
}

impl Model for Entries {
    ghost use Rattle.std.specs.Prelude.{vec_len, vec_capacity};
    ghost use Rattle.td_history.specs.EntriesValue.{EntriesValue};

    ghost Value = { EntriesValue };

    ghost use Rattle.td_history.specs.EntriesParts.{AreEntriesParts};

    ghost view = { λ e. record {
      entries = e.entries.items;
      wholes = e.aside.wholes;
      texts = e.aside.texts;
      offered = e.aside.offered;
      room = e.room;
    } };

    ghost invariant = { λ e. AreEntriesParts e.entries.room e.aside.room e.room };
}

impl Entries {
    /// No entries, and no room.
    pub fn new(alloc: Global) -> Entries
        ensures { result ≡ record { entries = []; wholes = []; texts = []; offered = []; room = 0 } }
    {
        Entries {
            entries: Ramps::new(alloc),
            aside: Aside::new(alloc),
            room: 0,
        }
    }

    /// Makes room for so many more entries.
    pub fn reserve(&mut self, more: u32) -> Result<(), Memory>
        ensures entries { self.new ≡ record self.old { room = self.new.room } }
        ensures room { OnOk result (self.new.room ≡ more) }
    {
        self.room = 0;
        self.entries.reserve(more)?;
        self.aside.reserve(more)?;
        self.room = more;
        Ok(())
    }

    /// Adds an entry, of a replica with this log.
    pub fn push(&mut self, log: &Log, input: &Input, reply: &Reply, number: Option<u32>)
        requires room { 1 ≤ self.old.room }
        ensures entries { (list : List Entry) → IfSome number (IsDoneAs log.now.ops input.now)
            → StandFor (entry_of log.now.ops self.old) self.old.entries list
            → StandFor (entry_of log.now.ops self.new) self.new.entries
            (list ++ record { input = input.now; reply = reply.now } ∷ []) }
        ensures room { self.new.room ≡ self.old.room - 1 }
    {
        let entry = keep_entry(log, &mut self.aside, input, reply, number);
        self.entries.push(entry);
        self.room -= 1;
    }

    /// How many entries there are.
    pub fn len(&self) -> u64
        ensures { result ≡ length self.now.entries }
    {
        self.entries.len() as u64
    }

    /// The entry at a place from 0.
    pub fn get(&self, log: &Log, k: u64) -> Option<Entry>
        ensures { result ≡ option_and_then (entry_of log.now.ops self.now) (slice_get self.now.entries k) }
    {
        let kept = self.kept_at(k)?;
        kept.entry(log, &self.aside)
    }

    // The compact entry at a place.
    fn kept_at(&self, k: u64) -> Option<CompactEntry>
        ensures { result ≡ slice_get self.now.entries k }
    {
        self.entries.get(k)
    }
}
