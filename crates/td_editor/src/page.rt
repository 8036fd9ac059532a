ghost use Rattle.std.specs.Prelude.{◌≡◌, ◌≤◌, ◌+◌, [], vec_len, vec_capacity};
ghost use Rattle.std.proofs.Common.{ap};
ghost use Rattle.td_base.specs.declared.run.TheConstants.{MAX_RUN_LEN};
ghost use Rattle.td_op.specs.Change.{changed, put_count};

use crate::screen::Screen;
use std::alloc::Global;
use td_base::{Atom, MAX_RUN_LEN, Memory};
use td_op::Change;

/// The plainest screen: a list of the atoms shown.
#[derive(Drop)]
pub struct Page {
    atoms: Vec<Atom>,
}

impl Page {
    /// A blank one. It takes no memory.
    pub fn new(alloc: Global) -> Page
        ensures { result.atoms.items ≡ [] }
    {
        Page {
            atoms: Vec::new(alloc),
        }
    }

    /// The atoms shown.
    pub fn atoms(&self) -> &[Atom]
        ensures { result.now ≡ self.now.atoms.items }
    {
        &self.atoms
    }
}

impl Screen for Page {
    type State = [Atom; 0];

    ghost state = { λ p. p.atoms.items };

    ghost heard = { λ atoms change. changed change atoms };

    ghost shows = { λ page atoms. page ≡ atoms };

    ghost has_room = { λ p. vec_len p.atoms + MAX_RUN_LEN ≤ vec_capacity p.atoms };

    fn reserve(&mut self) -> Result<(), Memory> {
        self.atoms.reserve(MAX_RUN_LEN)?;
        Ok(())
    }

    fn change(&mut self, change: &Change) {
        puts_few(change);
        change.apply(&mut self.atoms);
    }

    ghost follows = { λ page atoms change e. ap (changed change) e };
}

// No change puts more atoms than a run has.
fn puts_few(change: &Change)
    ensures { put_count change.now ≤ MAX_RUN_LEN }
{
    if let Change::PutRun { run, .. } = change {
        let _len = run.len();
    }
}
