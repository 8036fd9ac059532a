ghost use Rattle.std.specs.Prelude.{◌≡◌, ◌≤◌, ◌+◌, length, take};
ghost use Rattle.td_op.specs.declared.body.Body.TheVariants.{Insert as InsertOf};
ghost use Rattle.td_store.specs.HeadsParts.{HasRun, body_of};

use crate::compact_dot::CompactDot;
use crate::compact_id::CompactId;
use crate::compact_slot::CompactSlot;
use crate::runs::Runs;
use td_base::{Atom, Run};
use td_op::Body;
use td_path::Slot;

// What an operation does, with the number of its run in a list of runs; a letter is kept in the body itself.
#[derive(Clone, Copy, Debug, PartialEq, Eq)]
pub(crate) enum CompactBody {
    Insert { slot: CompactSlot, run: u32 },
    Letter { slot: CompactSlot, letter: u8 },
    Delete { target: CompactId },
    Propose { slot: CompactSlot },
    Commit { proposal: CompactDot },
    Abort { proposal: CompactDot },
}

impl CompactBody {
    // The body, made compact; its run is added to the list, unless it is a letter. Takes no memory.
    pub(crate) fn of(body: &Body, runs: &mut Runs) -> CompactBody
        requires { 1 ≤ runs.old.room }
        ensures body { body_of runs.new.runs result ≡ body.now }
        ensures run { HasRun runs.new.runs result }
        ensures runs { take (length runs.old.runs) runs.new.runs ≡ runs.old.runs }
        ensures room { runs.old.room ≤ runs.new.room + 1 }
    {
        match body {
            Body::Insert { slot, run } => CompactBody::insertion(slot, run, runs),
            Body::Delete { target } => CompactBody::Delete {
                target: CompactId::of(*target),
            },
            Body::Propose { slot } => CompactBody::Propose {
                slot: CompactSlot::of(slot),
            },
            Body::Commit { proposal } => CompactBody::Commit {
                proposal: CompactDot::of(*proposal),
            },
            Body::Abort { proposal } => CompactBody::Abort {
                proposal: CompactDot::of(*proposal),
            },
        }
    }

    // The insertion of the run, made compact in the same way.
    pub(crate) fn insertion(slot: &Slot, run: &Run, runs: &mut Runs) -> CompactBody
        requires { 1 ≤ runs.old.room }
        ensures body { body_of runs.new.runs result ≡ InsertOf slot.now run.now }
        ensures run { HasRun runs.new.runs result }
        ensures runs { take (length runs.old.runs) runs.new.runs ≡ runs.old.runs }
        ensures room { runs.old.room ≤ runs.new.room + 1 }
    {
        let slot = CompactSlot::of(slot);
        match run.bytes() {
            [letter] if run.len() == 1 => CompactBody::Letter {
                slot,
                letter: *letter,
            },
            _ => {
                let number = runs.len();
                runs.push(run);
                CompactBody::Insert { slot, run: number }
            }
        }
    }

    // The body that it stands for.
    pub(crate) fn body(&self, runs: &Runs) -> Body
        requires { HasRun runs.now.runs self.now }
        ensures { result ≡ body_of runs.now.runs self.now }
    {
        // early returns: an arm of a `match` would copy its ninety bytes once more
        let (slot, run) = match *self {
            CompactBody::Insert { slot, run } => (slot, run),
            CompactBody::Letter { slot, letter } => {
                return Body::Insert {
                    slot: slot.slot(),
                    run: Run::one(Atom::of(&[letter])),
                };
            }
            CompactBody::Delete { target } => {
                return Body::Delete {
                    target: target.id(),
                };
            }
            CompactBody::Propose { slot } => return Body::Propose { slot: slot.slot() },
            CompactBody::Commit { proposal } => {
                return Body::Commit {
                    proposal: proposal.dot(),
                };
            }
            CompactBody::Abort { proposal } => {
                return Body::Abort {
                    proposal: proposal.dot(),
                };
            }
        };
        let slot = slot.slot();
        let run = runs.at(run);
        Body::Insert { slot, run }
    }
}
