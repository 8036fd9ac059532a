// What becomes of a packet, and of what waits.
ghost use Rattle.std.specs.Prelude.{◌≡◌, ◌↔◌, length, false, Ok, IfOk, OnOk, OnErr, IsTrue};
ghost use Rattle.td_op.specs.declared.message.Message.{Message};
ghost use Rattle.td_wire.specs.declared.reading.Malformed.{Malformed as WireFault};
ghost use Rattle.td_wire.specs.Spelling.{SpellsIn, IsFaultAt};
ghost use Rattle.td_editor.specs.declared.received.Received.TheVariants.{Malformed, Stray};
ghost use Rattle.td_editor.specs.Due.{IsDue};
ghost use Rattle.td_replica.specs.Replica.{has_ready};
ghost use Rattle.td_editor.specs.Editors.{after_inputs, all_nexts, taking, IsTaken, IsStopped};

use crate::editor::Editor;
use crate::received::Received;
use crate::screen::Screen;
use crate::sending::names_made;
use td_base::Memory;
use td_doc::Doc;
use td_op::{Input, Message};
use td_wire::decode;

impl<D: Doc, S: Screen> Editor<D, S> {
    /// Takes a packet of another site, and then what waits and is ready. After `Memory` the steps before the one that
    /// found none are done: what waits is taken with the next packet, or by `catch_up`.
    pub fn receive(&mut self, packet: &[u8]) -> Result<Received, Memory>
        ensures took { (m : Message) → SpellsIn m packet.now → IsDue self.old.replica.machine m
            → IfOk result (IsTaken S.heard m self.old self.new) }
        ensures err { (m : Message) → SpellsIn m packet.now
            → OnErr result (IsStopped S.heard (taking m self.old.replica.machine) self.old self.new) }
        ensures stray { (m : Message) → SpellsIn m packet.now → ¬ IsDue self.old.replica.machine m
            → (result ≡ Ok Stray) × (self.new ≡ self.old) }
        ensures malformed { ((m : Message) → ¬ SpellsIn m packet.now)
            → (fault : WireFault) × (result ≡ Ok (Malformed fault)) × IsFaultAt packet.now fault.at
            × (self.new ≡ self.old) }
    {
        match decode(packet) {
            Ok(message) => self.take(&message),
            Err(fault) => Ok(Received::Malformed(fault)),
        }
    }

    /// The same of a message that came by another way.
    pub fn take(&mut self, message: &Message) -> Result<Received, Memory>
        ensures took { IsDue self.old.replica.machine message.now
            → IfOk result (IsTaken S.heard message.now self.old self.new) }
        ensures err { OnErr result
            (IsStopped S.heard (taking message.now self.old.replica.machine) self.old self.new) }
        ensures stray { ¬ IsDue self.old.replica.machine message.now → (result ≡ Ok Stray) × (self.new ≡ self.old) }
    {
        if !self.is_due(message) {
            return Ok(Received::Stray);
        }
        let reply = self.step(&Input::Take(*message))?;
        let next = self.catch_up()?;
        Ok(Received::Took { reply, next })
    }

    /// Takes what waits, as long as something is ready; how often is answered. There is something only after `Memory`.
    pub fn catch_up(&mut self) -> Result<u32, Memory>
        ensures count { IfOk result (λ count. count ≡ length (all_nexts self.old.replica.machine)) }
        ensures ok { OnOk result (self.new ≡ after_inputs S.heard (all_nexts self.old.replica.machine) self.old) }
        ensures ready { OnOk result (has_ready self.new.replica.machine ≡ false) }
        ensures err { OnErr result (IsStopped S.heard (all_nexts self.old.replica.machine) self.old self.new) }
    {
        let waiting = self.replica().waiting();
        for count in 0..waiting {
            if !self.replica().ready() {
                return Ok(count);
            }
            self.step(&Input::Next)?;
        }
        Ok(waiting)
    }

    // Whether the message is one that another site can have sent to this one.
    fn is_due(&self, message: &Message) -> bool
        ensures { IsTrue result ↔ IsDue self.now.replica.machine message.now }
    {
        let own = self.replica().site();
        message.is_for(own) && names_made(own, message) <= self.replica().made()
    }
}
