ghost use Rattle.std.specs.Prelude.{◌≡◌, IfOk, length};
ghost use Rattle.td_doc.specs.Document.{live_atoms};
ghost use Rattle.td_replica.specs.Replica.{new_replica};

use crate::fault::Fault;
use std::alloc::Global;
use td_base::{Atom, Site};
use td_doc::Doc;
use td_editor::{Editor, Page, Received};
use td_op::Reply;
use td_text::{cut, runs_of};
use td_tree::Tree;

// So many sites share the text.
const SITES: u8 = 2;

/// Where a user sits: an editor, and how many of its messages were sent.
#[derive(Drop)]
pub(crate) struct Desk {
    alloc: Global,
    pub(crate) editor: Editor<Tree, Page>,
    sent: u64,
}

impl Desk {
    /// The desk of a site, with a blank screen.
    pub(crate) fn open(alloc: Global, number: u8) -> Result<Desk, Fault>
        ensures { IfOk result (λ desk. desk.editor.replica ≡ new_replica number SITES) }
    {
        let Some(site) = Site::new(number) else {
            return Err(Fault::NoSite);
        };
        if number > SITES {
            return Err(Fault::NoSite);
        }
        let editor = Editor::new(alloc, site, SITES, Page::new(alloc))?;
        Ok(Desk {
            alloc,
            editor,
            sent: 0,
        })
    }

    /// What is on the screen: the atoms of the text, always.
    pub(crate) fn atoms(&self) -> &[Atom]
        ensures { result.now ≡ live_atoms self.now.editor.replica.machine.doc }
    {
        self.editor.screen().atoms()
    }

    /// How many rows the document has, tombstones included.
    pub(crate) fn rows(&self) -> u32
        ensures { result ≡ length self.now.editor.replica.machine.doc }
    {
        self.editor.replica().doc().rows()
    }

    /// Types a text at an index, a letter after another.
    pub(crate) fn type_text(&mut self, index: u32, text: &str) -> Result<(), Fault> {
        let Ok(atoms) = cut(self.alloc, text) else {
            return Err(Fault::NoText);
        };
        let mut at = index;
        for atom in atoms.iter() {
            is_made(self.editor.insert(at, atom)?)?;
            at = at.saturating_add(1);
        }
        Ok(())
    }

    /// Pastes a text at an index, some sixty letters at once.
    pub(crate) fn paste(&mut self, index: u32, text: &str) -> Result<(), Fault> {
        let Ok(atoms) = cut(self.alloc, text) else {
            return Err(Fault::NoText);
        };
        let _count = atoms.len();
        let mut at = index;
        for run in runs_of(&atoms) {
            is_made(self.editor.paste(at, run)?)?;
            at = at.saturating_add(u32::from(run.len()));
        }
        Ok(())
    }

    /// Deletes so many atoms from an index on.
    pub(crate) fn delete(&mut self, index: u32, count: u32) -> Result<(), Fault> {
        for _ in 0..count {
            is_made(self.editor.delete(index)?)?;
        }
        Ok(())
    }

    /// Asks all to have the document rebalanced.
    pub(crate) fn flatten(&mut self) -> Result<(), Fault> {
        is_made(self.editor.flatten()?)
    }

    /// Sends the other one what was not sent yet.
    pub(crate) fn send_to(&mut self, other: &mut Desk) -> Result<(), Fault> {
        let to = other.editor.replica().site();
        for number in self.sent..self.editor.sent() {
            if let Some(packet) = self.editor.packet(to, number + 1) {
                other.receive(packet.bytes())?;
            }
            self.sent = number + 1;
        }
        Ok(())
    }

    // Takes a packet. One that came twice is none to speak of: the replica knows it.
    fn receive(&mut self, packet: &[u8]) -> Result<(), Fault> {
        match self.editor.receive(packet)? {
            Received::Took { reply, .. } => is_fit(reply),
            Received::Malformed(_) | Received::Stray => Err(Fault::NoPacket),
        }
    }
}

// A request was done, and not refused.
fn is_made(reply: Reply) -> Result<(), Fault> {
    match reply {
        Reply::Made { .. } => Ok(()),
        Reply::Held { .. } => Err(Fault::Held),
        Reply::Limit { .. } => Err(Fault::Limit),
        _ => Err(Fault::NoPlace),
    }
}

// An editor of this text may have sent the packet.
fn is_fit(reply: Reply) -> Result<(), Fault> {
    match reply {
        Reply::Unfit { .. } => Err(Fault::NoPacket),
        _ => Ok(()),
    }
}
