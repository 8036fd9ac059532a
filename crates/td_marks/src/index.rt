// Which operations name an atom, so that not all are looked at for it.
ghost use Rattle.std.specs.Prelude.{◌≡◌, [], OnOk};
ghost use Rattle.td_base.specs.Lists.{In};
ghost use Rattle.td_base.specs.Value.{AtomIdValue};
ghost use Rattle.td_marks.specs.Index.{numbers_at, KeepsListed};

use std::alloc::Global;
use std::collections::BTreeMap;
use td_base::{AtomId, Memory};

/// The numbers of the operations that name an atom. Where memory ran out, the number of the next one may stand under
/// some atoms already.
#[derive(Debug, Drop)]
pub(crate) struct Index {
    lists: BTreeMap<AtomId, Vec<u32>>,
    alloc: Global,
}

impl Index {
    /// Nothing is listed.
    pub(crate) fn new(alloc: Global) -> Index
        ensures { (x : AtomIdValue) → numbers_at result x ≡ [] }
    {
        Index {
            lists: BTreeMap::new(alloc),
            alloc,
        }
    }

    /// The numbers under the atom.
    pub(crate) fn numbers(&self, id: AtomId) -> &[u32]
        ensures { result.now ≡ numbers_at self.now id }
    {
        match self.lists.get(&id) {
            Some(numbers) => numbers,
            None => &[],
        }
    }

    /// Lists the number under each of the atoms.
    pub(crate) fn add_all(&mut self, atoms: &[AtomId], number: u32) -> Result<(), Memory>
        ensures kept { KeepsListed self.old self.new }
        ensures listed { OnOk result ((x : AtomIdValue) → In x atoms.now → In number (numbers_at self.new x)) }
    {
        for id in atoms {
            self.add(*id, number)?;
        }
        Ok(())
    }

    // Lists the number under the atom.
    fn add(&mut self, id: AtomId, number: u32) -> Result<(), Memory>
        ensures kept { KeepsListed self.old self.new }
        ensures listed { OnOk result (In number (numbers_at self.new id)) }
    {
        let numbers = self.lists.entry(id)?.or_insert(Vec::new(self.alloc));
        numbers.push(number)?;
        Ok(())
    }
}
