ghost use Rattle.std.specs.Prelude.{◌≡◌, ◌++◌, ◌∷◌, [], OnOk, OnErr};

use std::alloc::Global;
use std::marker::Model;
use td_base::{Bytes, Memory, Site};

/// What an editor did.
#[derive(Debug, Drop)]
pub enum Did {
    /// The call with this number, from 1, is this entry of the history of the editor's site.
    Call { call: u32, entry: u64 },
    /// A look behind so many answered calls, at the text behind so many entries of the site.
    Look { calls: u32, upto: u64, text: Bytes },
}

/// What an editor did, in order.
#[derive(Debug, Drop)]
pub struct DidList {
    items: Vec<Did>,
}

impl Model for DidList {
    ghost use Rattle.std.specs.Prelude.{List};
    ghost use Rattle.td_trace.specs.declared.log.Did.{Did};

    ghost Value = { List Did };

    ghost view = { λ d. d.items.items };
}

impl DidList {
    /// Nothing done. Takes no memory.
    pub fn new(alloc: Global) -> DidList
        ensures { result ≡ [] }
    {
        DidList {
            items: Vec::new(alloc),
        }
    }

    /// What was done, from a list of it. Takes no memory.
    pub fn of(items: Vec<Did>) -> DidList
        ensures { result ≡ items.items }
    {
        DidList { items }
    }

    /// Adds what was done at the end.
    pub fn push(&mut self, did: Did) -> Result<(), Memory>
        ensures ok { OnOk result (self.new ≡ self.old ++ did ∷ []) }
        ensures err { OnErr result (self.new ≡ self.old) }
    {
        self.items.push(did)?;
        Ok(())
    }

    /// What was done, in order.
    pub fn as_slice(&self) -> &[Did]
        ensures { result.now ≡ self.now }
    {
        &self.items
    }
}

/// The calls and looks of one editor.
#[derive(Debug, Drop)]
pub struct EditorLog {
    /// The site of the editor.
    pub home: Site,
    /// Its calls and looks, in the order in which they were done.
    pub did: DidList,
}
