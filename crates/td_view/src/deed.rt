ghost use Rattle.std.specs.Prelude.{◌≡◌, MatchOption, MatchResult, OnErr, OnOk};
ghost use Rattle.td_op.specs.Change.{changed, CanChange};

use crate::history::Publishes;
use crate::shown::Shown;
use left_right::Absorb;
use std::alloc::AllocError;
use td_base::{Atom, Memory};
use td_op::Change;
use td_rope::Rope;

/// What is done to a text that is not shown yet.
#[derive(Drop)]
pub enum Deed {
    /// A change of its atoms.
    Alter(Change),
    /// Says which publish it is.
    Stamp {
        upto: u64,
        last: u64,
        count: u64,
        past: Publishes,
    },
}

impl Absorb<Deed> for Shown {
    ghost use Rattle.td_view.specs.Deeds.{done_by, state_of};

    type State = (u64, u64, u64, [Atom; 0], Publishes);

    ghost state = { state_of };

    ghost applied = { done_by };

    fn absorb_first(&mut self, deed: &Deed, _other: &Shown) -> Result<(), AllocError> {
        match deed {
            Deed::Alter(change) => alter(&mut self.atoms, change),
            Deed::Stamp {
                upto,
                last,
                count,
                past,
            } => {
                self.upto = *upto;
                self.last = *last;
                self.count = *count;
                self.past = past.again();
                Ok(())
            }
        }
    }
}

// Does a change as far as it is in range.
fn alter(atoms: &mut Rope, change: &Change) -> Result<(), AllocError>
    ensures { MatchResult result (λ _. atoms.new ≡ changed change.now atoms.old) (λ _. atoms.new ≡ atoms.old) }
{
    let Some(change) = in_range(change, atoms) else {
        return Ok(());
    };
    match do_change(atoms, &change) {
        Ok(()) => Ok(()),
        Err(Memory) => Err(AllocError),
    }
}

// Does a change that is in range.
fn do_change(atoms: &mut Rope, change: &Change) -> Result<(), Memory>
    requires { CanChange change.now atoms.old }
    ensures ok { OnOk result (atoms.new ≡ changed change.now atoms.old) }
    ensures err { OnErr result (atoms.new ≡ atoms.old) }
{
    match *change {
        Change::Put { index, atom } => atoms.put(index, atom),
        Change::PutRun { index, run } => atoms.put_run(index, &run),
        Change::Cut { index } => {
            atoms.take_out(index);
            Ok(())
        }
    }
}

// The change with an index that is in range. None where it changes nothing.
fn in_range(change: &Change, atoms: &Rope) -> Option<Change>
    ensures { MatchOption result
        (changed change.now atoms.now ≡ atoms.now)
        (λ fit. CanChange fit atoms.now × (changed fit atoms.now ≡ changed change.now atoms.now)) }
{
    let end = atoms.len();
    match *change {
        Change::Put { index, atom } => Some(Change::Put {
            index: index.min(end),
            atom,
        }),
        Change::PutRun { index, run } => Some(Change::PutRun {
            index: index.min(end),
            run,
        }),
        Change::Cut { index } => {
            if index < end {
                Some(Change::Cut { index })
            } else {
                None
            }
        }
    }
}
