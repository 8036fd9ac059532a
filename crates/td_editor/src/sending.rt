// What is sent to other sites.
ghost use Rattle.std.specs.Prelude.{◌≡◌, length, true, false, Some, IfSome, IfNone};
ghost use Rattle.td_op.specs.declared.message.Message.{Message};
ghost use Rattle.td_base.specs.Lists.{kth};
ghost use Rattle.td_op.specs.Message.{is_for};
ghost use Rattle.td_machine.specs.History.{known_of};
ghost use Rattle.td_wire.specs.Spelling.{SpellsIn};

use crate::editor::Editor;
use crate::screen::Screen;
use td_base::Site;
use td_doc::Doc;
use td_op::Message;
use td_wire::{Packet, encode};

impl<D: Doc, S: Screen> Editor<D, S> {
    /// How many messages were sent.
    pub fn sent(&self) -> u64
        ensures { result ≡ length self.now.replica.machine.sent }
    {
        self.replica().sent()
    }

    /// The packet of the k-th message, from 1, where it is for this site. It takes no memory.
    pub fn packet(&self, to: Site, k: u64) -> Option<Packet>
        ensures some { IfSome result (λ packet. (m : Message) × (kth k self.now.replica.machine.sent ≡ Some m)
            × (is_for to m ≡ true) × SpellsIn m packet) }
        ensures none { IfNone result ((m : Message) → kth k self.now.replica.machine.sent ≡ Some m
            → is_for to m ≡ false) }
    {
        let message = self.replica().sent_at(k)?;
        if !message.is_for(to) {
            return None;
        }
        Some(encode(&message))
    }
}

// How many operations of the site the message names.
pub(crate) fn names_made(site: Site, message: &Message) -> u32
    ensures { result ≡ known_of site message.now }
{
    match message {
        Message::Op(op) => {
            let deps = op.deps();
            if site.number() > deps.size() {
                return 0;
            }
            deps.get(site)
        }
        Message::Vote(vote) => vote.proposal.seq,
    }
}
