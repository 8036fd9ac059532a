// What is sent to another worker.
ghost use Rattle.std.specs.Prelude.{◌≡◌, ◌<◌, ◌+◌, ◌^◌, ◌-◌, Some, None, slice_get, length, true, false};
ghost use Rattle.std.specs.Prelude.{MatchOption, IfSome, IfNone};
ghost use Rattle.td_wire.specs.Spelling.{SpellsIn};
ghost use Rattle.td_peer.specs.declared.parcel.Parcel.{Parcel};
ghost use Rattle.td_link.specs.Moments.{WasFull};
ghost use Rattle.td_peer.specs.Serving.{Serves, LaterPeer, SentOrNothing, SentAtMostOne, sent_more};
ghost use Rattle.td_peer.specs.Serving.{times, passed, noted};

use crate::loss::is_addressed;
use crate::parcel::Parcel;
use crate::peer::Peer;
use std::sync::Wait;
use td_doc::Doc;
use td_op::Message;
use td_replica::Replica;
use td_wire::encode;

impl Peer {
    /// Sends at most one packet: of the messages of the replica that are for the other site the next that is to be
    /// sent. It takes no memory, and may spin.
    pub fn tell<D: Doc, R: Wait>(&mut self, rt: &R, replica: &Replica<D>)
        requires own { self.old.own ≡ replica.now.machine.site }
        requires serves { Serves replica.now.machine.sent self.old }
        ensures serves { Serves replica.now.machine.sent self.new }
        ensures same { self.new ≡ record self.old {
          outbox = self.new.outbox;
          dealt = self.new.dealt;
          addressed = self.new.addressed;
          again = self.new.again;
        } }
        ensures later { LaterPeer self.old self.new }
        ensures most { SentAtMostOne self.old.outbox self.new.outbox }
        ensures sent { SentOrNothing replica.now.machine.sent self.old self.new }
    {
        if let Some(message) = self.next_to_send(replica) {
            self.send_next(rt, replica, &message);
        }
    }

    // The next message that is to be sent, if there is one. Those before it are passed over.
    fn next_to_send<D: Doc>(&mut self, replica: &Replica<D>) -> Option<Message>
        requires serves { Serves replica.now.machine.sent self.old }
        ensures serves { Serves replica.now.machine.sent self.new }
        ensures same { self.new ≡ record self.old {
          dealt = self.new.dealt;
          addressed = self.new.addressed;
          again = self.new.again;
        } }
        ensures next { MatchOption result (self.new.dealt ≡ length replica.now.machine.sent)
            (λ m. (slice_get replica.now.machine.sent self.new.dealt ≡ Some m) × (0 < times self.new m)) }
    {
        for _ in self.dealt..replica.sent() {
            let message = self.pass_next(replica);
            if message.is_some() {
                return message;
            }
        }
        None
    }

    // The next message, where it is to be sent. Else it is passed over.
    fn pass_next<D: Doc>(&mut self, replica: &Replica<D>) -> Option<Message>
        requires serves { Serves replica.now.machine.sent self.old }
        requires within { self.old.dealt < length replica.now.machine.sent }
        requires small { self.old.dealt < 2 ^ 64 - 1 }
        ensures serves { Serves replica.now.machine.sent self.new }
        ensures same { self.new ≡ record self.old {
          dealt = self.new.dealt;
          addressed = self.new.addressed;
          again = self.new.again;
        } }
        ensures passed { IfNone result (self.new.dealt ≡ self.old.dealt + 1) }
        ensures next { IfSome result (λ m.
            (slice_get replica.now.machine.sent self.new.dealt ≡ Some m) × (0 < times self.new m)) }
    {
        let message = replica.message(self.dealt + 1);
        if self.times(&message) != 0 {
            return Some(message);
        }
        self.pass(&message);
        None
    }

    // Sends the next message, which is this one and to be sent.
    fn send_next<D: Doc, R: Wait>(&mut self, rt: &R, replica: &Replica<D>, message: &Message)
        requires own { self.old.own ≡ replica.now.machine.site }
        requires serves { Serves replica.now.machine.sent self.old }
        requires next { slice_get replica.now.machine.sent self.old.dealt ≡ Some message.now }
        requires due { 0 < times self.old message.now }
        ensures serves { Serves replica.now.machine.sent self.new }
        ensures same { self.new ≡ record self.old {
          outbox = self.new.outbox;
          dealt = self.new.dealt;
          addressed = self.new.addressed;
          again = self.new.again;
        } }
        ensures later { LaterPeer self.old self.new }
        ensures most { SentAtMostOne self.old.outbox self.new.outbox }
        ensures full { self.new.outbox.sent ≡ self.old.outbox.sent → WasFull self.old.outbox.cap self.old.outbox.sent }
    {
        let _ = replica.sent();
        if self.send(rt, replica, message) {
            self.note(message);
        }
    }

    // Sends this message, which is the next of the replica's. Whether it did.
    fn send<D: Doc, R: Wait>(&mut self, rt: &R, replica: &Replica<D>, message: &Message) -> bool
        requires own { self.old.own ≡ replica.now.machine.site }
        requires sent { slice_get replica.now.machine.sent self.old.dealt ≡ Some message.now }
        ensures sent { result ≡ true → (parcel : Parcel) × SpellsIn message.now parcel.packet
            × (self.new ≡ record self.old { outbox = sent_more parcel self.old.outbox }) }
        ensures full { result ≡ false → (self.new ≡ self.old) × WasFull self.old.outbox.cap self.old.outbox.sent }
    {
        let _ = replica.entries();
        let packet = encode(message);
        self.outbox.try_send(rt, Parcel { packet }).is_ok()
    }

    // The next message has been sent once more.
    fn note(&mut self, message: &Message)
        requires { self.old.dealt < 2 ^ 64 - 1 }
        ensures { self.new ≡ noted message.now self.old }
    {
        if !self.again && self.times(message) == 2 {
            self.again = true;
        } else {
            self.pass(message);
        }
    }

    // The next message is dealt with.
    fn pass(&mut self, message: &Message)
        requires { self.old.dealt < 2 ^ 64 - 1 }
        ensures { self.new ≡ passed message.now self.old }
    {
        if is_addressed(self.site, message) {
            self.addressed += 1;
        }
        self.dealt += 1;
        self.again = false;
    }

    // How often the next message is to be sent.
    fn times(&self, message: &Message) -> u8
        requires { self.now.dealt < 2 ^ 64 - 1 }
        ensures { result ≡ times self.now message.now }
    {
        if !is_addressed(self.site, message) {
            return 0;
        }
        self.loss.copies(self.addressed + 1)
    }
}
