// What is taken from another worker.
ghost use Rattle.std.specs.Prelude.{◌≡◌, ◌<◌, ◌≤◌, ◌++◌, ◌∷◌, [], ℕ, Some, None, MatchOption, IfSome, IfNone};
ghost use Rattle.td_op.specs.declared.message.Message.{Message};
ghost use Rattle.td_wire.specs.Spelling.{SpellsIn};
ghost use Rattle.td_link.specs.Moments.{WasEmpty};
ghost use Rattle.td_machine.specs.History.{History, known_of};
ghost use Rattle.td_op.specs.Message.{sender};
ghost use Rattle.td_machine.specs.Machine.{made};
ghost use Rattle.td_law_meeting.specs.Peers.{Hears};
ghost use Rattle.td_peer.specs.declared.parcel.Parcel.{Parcel};
ghost use Rattle.td_peer.specs.Peers.{peer_of};
ghost use Rattle.td_peer.specs.Serving.{LaterPeer, TakesNext, TookOrEmpty};

use crate::parcel::Parcel;
use crate::peer::Peer;
use std::sync::Wait;
use td_base::Site;
use td_doc::Doc;
use td_link::Rx;
use td_op::Message;
use td_replica::Replica;
use td_wire::decode;

impl Peer {
    /// Takes the next packet, where no message waits: what it says waits then. It takes no memory, and may spin.
    pub fn take_packet<R: Wait>(&mut self, rt: &R)
        ensures same { self.new ≡ record self.old { inbox = self.new.inbox; waiting = self.new.waiting } }
        ensures waits { (m : Message) → self.old.waiting ≡ Some m → self.new ≡ self.old }
        ensures next { self.old.waiting ≡ None → TakesNext self.old self.new }
        ensures later { LaterPeer self.old self.new }
        ensures hears { (entries : History) → Hears entries (peer_of self.old) → Hears entries (peer_of self.new) }
        ensures took { TookOrEmpty self.old self.new }
    {
        if self.waiting.is_some() {
            return;
        }
        self.waiting = next_message(rt, &mut self.inbox);
    }

    /// The message that waits, where it may be given to the replica: where all that it names of this site is made. No
    /// worker sends another kind, but the two ends of a link cannot show it. It takes no memory.
    pub fn due<D: Doc>(&self, replica: &Replica<D>) -> Option<Message>
        requires { self.now.own ≡ replica.now.machine.site }
        ensures due { IfSome result (λ m. (self.now.waiting ≡ Some m)
            × (sender m ≡ self.now.site) × (known_of self.now.own m ≤ made replica.now.machine)) }
        ensures none { IfNone result ((m : Message) → self.now.waiting ≡ Some m
            → made replica.now.machine < known_of self.now.own m) }
    {
        let message = self.waiting?;
        if known_of(self.own, &message) > replica.made() {
            return None;
        }
        Some(message)
    }

    /// The message that waited is given to the replica. It takes no memory.
    pub fn done(&mut self)
        ensures { self.new ≡ record self.old { waiting = None } }
    {
        self.waiting = None;
    }
}

// What the next packet says, if there is one.
fn next_message<R: Wait>(rt: &R, inbox: &mut Rx<Parcel>) -> Option<Message>
    ensures taken { MatchOption result ((inbox.new ≡ inbox.old) × WasEmpty inbox.old.taken)
        (λ m. (parcel : Parcel) × SpellsIn m parcel.packet
        × (inbox.new ≡ record inbox.old { taken = inbox.old.taken ++ parcel ∷ [] })) }
    ensures from { IfSome result (λ m. (site : ℕ) → inbox.old.mark ≡ Some site → sender m ≡ site) }
{
    let parcel = inbox.try_take(rt)?;
    match decode(parcel.packet.bytes()) {
        Ok(message) => Some(message),
        // which never comes: a packet is the spelling of a message
        Err(_) => None,
    }
}

// How many operations of the site the message names.
fn known_of(site: Site, message: &Message) -> u32
    ensures { result ≡ known_of site message.now }
{
    match message {
        Message::Op(op) => {
            let deps = op.deps();
            if site.number() > deps.size() {
                return 0;
            }
            deps.get(site)
        }
        Message::Vote(vote) => vote.proposal.seq,
    }
}
