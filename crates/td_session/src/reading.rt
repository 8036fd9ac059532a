ghost use Rattle.std.specs.Prelude.{◌≡◌, length, slice_range, IfErr, IfOk};
ghost use Rattle.std.specs.List.{concat};
ghost use Rattle.td_doc.specs.Document.{live_rows, text_of};
ghost use Rattle.td_machine.specs.Machine.{made};
ghost use Rattle.td_session.specs.declared.fault.Fault.TheVariants.{Memory as OutOfMemory};
ghost use Rattle.td_session.specs.Reads.{IsHad, IsStretchOf};

use crate::fault::Fault;
use crate::session::Session;
use std::alloc::Global;
use td_base::{Bytes, Memory, Site};
use td_doc::Doc;
use td_op::Change;
use td_rope::Rope;

impl Session {
    /// The own site.
    pub fn site(&self) -> Site
        ensures { result ≡ self.now.machine.site }
    {
        self.replica.site()
    }

    /// How many sites share the text.
    pub fn sites(&self) -> u8
        ensures { result ≡ self.now.machine.size }
    {
        self.replica.size()
    }

    /// How many atoms the text has.
    pub fn len(&self) -> u32
        ensures { result ≡ length (live_rows self.now.machine.doc) }
    {
        self.replica.doc().live()
    }

    /// The text.
    pub fn text(&self) -> Result<Bytes, Fault>
        ensures ok { IfOk result (λ text. text ≡ text_of self.now.machine.doc) }
        ensures err { IfErr result (λ fault. fault ≡ OutOfMemory) }
    {
        match self.replica.text(self.alloc) {
            Ok(text) => Ok(text),
            Err(Memory) => Err(Fault::Memory),
        }
    }

    /// The text of the atoms from one index on and before another.
    pub fn stretch(&mut self, from: u32, upto: u32) -> Result<Bytes, Fault>
        ensures same { self.new ≡ self.old }
        ensures told { IsStretchOf from upto self.old.machine.doc result }
    {
        if from > upto || upto > self.len() {
            return Err(Fault::Stretch);
        }
        match self.take_rope() {
            Ok(rope) => {
                let text = between(self.alloc, &rope, from, upto);
                self.rope = Some(rope);
                text
            }
            Err(fault) => Err(fault),
        }
    }

    /// What the last step did to the atoms shown. None where it did nothing to them, and where there was no step.
    pub fn changed(&self) -> Option<Change>
        ensures { result ≡ self.now.change }
    {
        self.replica.last_change()
    }

    /// How many operations were made here.
    pub fn made(&self) -> u32
        ensures { result ≡ made self.now.machine }
    {
        self.replica.made()
    }

    /// How many operations of a site were made or taken here: a number of the version vector.
    pub fn had(&self, site: u8) -> Result<u32, Fault>
        ensures { IsHad site self.now.machine result }
    {
        let have = self.replica.have();
        match Site::new(site) {
            Some(of) if site <= have.size() => Ok(have.get(of)),
            _ => Err(Fault::Site),
        }
    }

    /// How many operations wait for others.
    pub fn waiting(&self) -> u32
        ensures { result ≡ length self.now.machine.waiting }
    {
        self.replica.waiting()
    }

    /// How many proposals are held.
    pub fn holds(&self) -> u32
        ensures { result ≡ length self.now.machine.holds }
    {
        self.replica.holds()
    }
}

// The bytes of the atoms from one index on and before another.
fn between(alloc: Global, rope: &Rope, from: u32, upto: u32) -> Result<Bytes, Fault>
    ensures ok { IfOk result (λ text. text ≡ concat (slice_range rope.now from upto)) }
    ensures err { IfErr result (λ fault. fault ≡ OutOfMemory) }
{
    let mut text = Bytes::new(alloc);
    match rope.push_range(from, upto, &mut text) {
        Ok(()) => Ok(text),
        Err(Memory) => Err(Fault::Memory),
    }
}
