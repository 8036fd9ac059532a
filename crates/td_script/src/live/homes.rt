ghost use Rattle.std.specs.Prelude.{◌≡◌, ◌≤◌, ◌<◌, ◌++◌, ◌∷◌, [], length, ◌↔◌, IsTrue, OnOk, OnErr};

use crate::live::script::MAX_EDITORS;
use std::alloc::Global;
use std::marker::Model;
use td_base::{Memory, Site};

/// The site of each editor, in the order in which they were declared. There are at most `MAX_EDITORS`.
#[derive(Debug, Drop)]
pub struct Homes {
    items: Vec<Site>,
}

impl Model for Homes {
    ghost use Rattle.std.specs.Prelude.{◌≤◌, ℕ, List, length};
    ghost use Rattle.td_script.specs.declared.live.script.TheConstants.{MAX_EDITORS};

    ghost Value = { List ℕ };

    ghost view = { λ h. h.items.items };

    ghost invariant = { λ h. length h.items.items ≤ MAX_EDITORS };
}

impl Homes {
    /// No editors. Takes no memory.
    pub fn new(alloc: Global) -> Homes
        ensures { result ≡ [] }
    {
        Homes {
            items: Vec::new(alloc),
        }
    }

    /// Adds an editor of the site at the end.
    pub fn push(&mut self, site: Site) -> Result<(), Memory>
        requires { length self.old < MAX_EDITORS }
        ensures ok { OnOk result (self.new ≡ self.old ++ site ∷ []) }
        ensures err { OnErr result (self.new ≡ self.old) }
    {
        self.items.push(site)?;
        Ok(())
    }

    /// How many editors there are.
    pub fn len(&self) -> u32
        ensures value { result ≡ length self.now }
        ensures bound { result ≤ MAX_EDITORS }
    {
        self.items.len() as u32
    }

    /// Whether there are none.
    pub fn is_empty(&self) -> bool
        ensures { IsTrue result ↔ (self.now ≡ []) }
    {
        self.len() == 0
    }

    /// The sites, in the order of the editors.
    pub fn as_slice(&self) -> &[Site]
        ensures { result.now ≡ self.now }
    {
        &self.items
    }
}
