// What the last step did to the atoms shown.
ghost use Rattle.std.specs.Prelude.{◌≡◌, slice_get};
ghost use Rattle.std.specs.Option.{option_and_then};
ghost use Rattle.td_op.specs.Op.{OpValue};
ghost use Rattle.td_doc.specs.Answers.{live_before};
ghost use Rattle.td_machine.specs.Shown.{put_at_index};
ghost use Rattle.td_replica.specs.LastChange.{put_by, change_of};

use crate::state::State;
use td_base::{AtomId, Run};
use td_doc::Doc;
use td_op::{Body, Change};

/// What a step did to the list of live atoms. Where it did it, the document that it left tells: that is looked for when
/// it is asked for.
#[derive(Clone, Copy, Debug, PartialEq, Eq)]
pub enum LastChange {
    /// Nothing.
    Nothing,
    /// The run of the operation of this number was put.
    Put { number: u32 },
    /// This atom was taken out.
    Cut { target: AtomId },
}

impl<D: Doc> State<D> {
    /// The change, which nothing came after.
    pub(crate) fn change_of(&self, last: &LastChange) -> Option<Change>
        ensures { result ≡ change_of last.now self.now.ops self.now.machine.doc }
    {
        match *last {
            LastChange::Nothing => None,
            LastChange::Put { number } => self.put_of(number),
            LastChange::Cut { target } => Some(Change::Cut {
                index: live_before(&self.doc, target),
            }),
        }
    }

    // What the insert of this number put, which nothing came after.
    fn put_of(&self, number: u32) -> Option<Change>
        ensures { result ≡ option_and_then (λ (x : OpValue). put_by x.dot x.body self.now.machine.doc)
            (slice_get self.now.ops number) }
    {
        let dot = self.past.dot(number)?;
        match &self.past.body(number)? {
            Body::Insert { run, .. } => {
                let index = live_before(&self.doc, AtomId::of(dot));
                Some(put_at(index, run))
            }
            Body::Delete { .. } | Body::Propose { .. } => None,
            Body::Commit { .. } | Body::Abort { .. } => None,
        }
    }
}

// How many live atoms stand before the atom, or all of them where it is no row.
fn live_before<D: Doc>(doc: &D, id: AtomId) -> u32
    ensures { result ≡ live_before id (D.rows doc.now) }
{
    match doc.find(id) {
        Some(row) => row.index,
        None => doc.live(),
    }
}

// The run put at the index: one atom is put alone.
fn put_at(index: u32, run: &Run) -> Change
    ensures { result ≡ put_at_index index run.now }
{
    match run.only() {
        Some(atom) => Change::Put { index, atom },
        None => Change::PutRun { index, run: *run },
    }
}
