ghost use Rattle.std.specs.Prelude.{◌≡◌, length, IfNone, IfSome, None};
ghost use Rattle.td_base.specs.Lists.{kth};
ghost use Rattle.td_replica.specs.Replica.{has_ready};
ghost use Rattle.td_session.specs.Reads.{IsPacketOf, receiver};

use crate::session::Session;
use td_base::Site;
use td_op::Message;
use td_wire::{Packet, encode};

/// A message as it goes to other sites.
#[derive(Clone, Copy, Debug, PartialEq, Eq)]
pub struct Outgoing {
    /// The site to which it goes; none: to all others.
    pub to: Option<Site>,
    pub packet: Packet,
}

impl Session {
    /// How many messages were sent: it grows by requests, and by packets that are taken, which are voted on.
    pub fn sent(&self) -> u64
        ensures { result ≡ length self.now.machine.sent }
    {
        self.replica.sent()
    }

    /// The k-th message that was sent, from 1. It can be asked for as often as it is to be sent.
    pub fn packet(&self, k: u64) -> Option<Outgoing>
        ensures some { IfSome result (λ out. IsPacketOf k self.now.machine.sent out.to out.packet) }
        ensures none { IfNone result (kth k self.now.machine.sent ≡ None) }
    {
        if k == 0 || k > self.sent() {
            return None;
        }
        // not `sent_at`: each call that hands a message on copies its 240 bytes once more
        let message = self.replica.message(k);
        Some(Outgoing {
            to: receiver(&message),
            packet: encode(&message),
        })
    }

    /// Whether `next` would not reply Idle.
    pub fn ready(&self) -> bool
        ensures { result ≡ has_ready self.now.machine }
    {
        self.replica.ready()
    }
}

// The site to which a message goes, where it does not go to all others.
fn receiver(message: &Message) -> Option<Site>
    ensures { result ≡ receiver message.now }
{
    match message {
        Message::Op(_) => None,
        Message::Vote(vote) => Some(vote.proposal.site),
    }
}
