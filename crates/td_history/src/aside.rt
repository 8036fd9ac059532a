ghost use Rattle.std.specs.Prelude.{◌≡◌, ◌≤◌, ◌-◌, [], List, IfSome, OnOk, Some};
ghost use Rattle.std.specs.List.{slice_get};
ghost use Rattle.std.specs.Option.{option_and_then};
ghost use Rattle.td_op.specs.Op.{OpValue};
ghost use Rattle.td_history.specs.AsideValue.{HasGrown};
ghost use Rattle.td_history.specs.Entries.{whole_among};
ghost use Rattle.td_history.specs.Past.{IsDoneAs};

use crate::entry::WholeEntry;
use crate::input::keep_input;
use crate::log::Log;
use crate::reply::CompactReply;
use std::alloc::Global;
use std::marker::Model;
use td_base::Memory;
use td_op::{Entry, Input, Op, Reply};
use td_store::Runs;

/// What entries keep beside themselves: those that are kept whole, the texts that no operation has, and the operations
/// that were offered alone. There is room for so many more of each.
#[derive(Drop)]
pub struct Aside {
    wholes: Vec<WholeEntry>,
    texts: Runs,
    offered: Vec<Op>,
    room: u32,
}

impl Model for Aside {
    ghost use Rattle.std.specs.Prelude.{vec_len, vec_capacity};
    ghost use Rattle.td_history.specs.AsideValue.{AsideValue};
    ghost use Rattle.td_history.specs.EntriesParts.{AreAsideParts};

    ghost Value = { AsideValue };

    ghost view = { λ a. record {
      wholes = a.wholes.items;
      texts = a.texts.runs;
      offered = a.offered.items;
      room = a.room;
    } };

    ghost invariant = { λ a. AreAsideParts (vec_len a.wholes) (vec_capacity a.wholes) a.texts.room
        (vec_len a.offered) (vec_capacity a.offered) a.room };
}

impl Aside {
    /// Nothing, and no room.
    pub fn new(alloc: Global) -> Aside
        ensures { result ≡ record { wholes = []; texts = []; offered = []; room = 0 } }
    {
        Aside {
            wholes: Vec::new(alloc),
            texts: Runs::new(alloc),
            offered: Vec::new(alloc),
            room: 0,
        }
    }

    /// Makes room for so many more of each.
    pub fn reserve(&mut self, more: u32) -> Result<(), Memory>
        ensures aside { self.new ≡ record self.old { room = self.new.room } }
        ensures room { OnOk result (self.new.room ≡ more) }
    {
        self.room = 0;
        let most = (u32::MAX - more) as usize;
        if self.offered.len() > most || self.wholes.len() > most {
            return Err(Memory);
        }
        self.wholes.reserve(more as usize)?;
        self.texts.reserve(more)?;
        self.offered.reserve(more as usize)?;
        self.room = more;
        Ok(())
    }

    /// Keeps an entry whole, and answers its number among those that are.
    pub fn keep(&mut self, input: &Input, reply: &Reply, number: Option<u32>) -> u32
        requires { 1 ≤ self.old.room }
        ensures entry { (ops : List OpValue) → IfSome number (IsDoneAs ops input.now)
            → option_and_then (whole_among ops self.new.texts self.new.offered) (slice_get self.new.wholes result)
            ≡ Some (record { input = input.now; reply = reply.now }) }
        ensures grown { HasGrown self.old self.new }
        ensures room { self.new.room ≡ self.old.room - 1 }
    {
        let input = keep_input(&mut self.texts, &mut self.offered, input, number);
        let reply = CompactReply::of(reply);
        let place = self.wholes.len() as u32;
        self.wholes.push_reserved(WholeEntry { input, reply });
        self.room -= 1;
        place
    }

    /// The entry of a number among those that are kept whole.
    pub fn entry(&self, log: &Log, place: u32) -> Option<Entry>
        ensures { result ≡ option_and_then (whole_among log.now.ops self.now.texts self.now.offered)
            (slice_get self.now.wholes place) }
    {
        let whole = self.wholes.get(place as usize)?;
        whole.entry(log, &self.texts, &self.offered)
    }
}
