// Places in the text, in the units that editors count. They are asked of the rope, which is made for the first of them.
ghost use Rattle.std.specs.Prelude.{◌≡◌, ◌≤◌, ◌<◌, IfErr, IfOk};
ghost use Rattle.std.specs.List.{concat};
ghost use Rattle.td_rope.specs.Units.{width, IsIndexOf};
ghost use Rattle.td_session.specs.declared.fault.Fault.TheVariants.{Place};
ghost use Rattle.td_session.specs.Places.{IsIndexAt, IsOffsetOf, IsWidthOf};

use crate::fault::Fault;
use crate::session::Session;
use td_rope::{Rope, Unit};

impl Session {
    /// How wide the text is: its length in this unit.
    pub fn len_in(&mut self, unit: Unit) -> Result<u64, Fault>
        ensures same { self.new ≡ self.old }
        ensures told { IsWidthOf unit self.old.machine.doc result }
    {
        match self.take_rope() {
            Ok(rope) => {
                let width = rope.len_in(unit);
                self.rope = Some(rope);
                Ok(width)
            }
            Err(fault) => Err(fault),
        }
    }

    /// The offset of an atom: how wide the text before it is. The index behind the last atom has one too.
    pub fn offset(&mut self, unit: Unit, index: u32) -> Result<u64, Fault>
        ensures same { self.new ≡ self.old }
        ensures told { IsOffsetOf unit index self.old.machine.doc result }
    {
        if index > self.len() {
            return Err(Fault::Place);
        }
        match self.take_rope() {
            Ok(rope) => {
                let offset = rope.offset_of(unit, index);
                self.rope = Some(rope);
                Ok(offset)
            }
            Err(fault) => Err(fault),
        }
    }

    /// The index of the atom in which an offset lies: the last one that does not begin behind it. At the end of the
    /// text it is the number of atoms.
    pub fn index(&mut self, unit: Unit, offset: u64) -> Result<u32, Fault>
        ensures same { self.new ≡ self.old }
        ensures told { IsIndexAt unit offset self.old.machine.doc result }
    {
        match self.take_rope() {
            Ok(rope) => {
                let index = index_in(&rope, unit, offset);
                self.rope = Some(rope);
                index
            }
            Err(fault) => Err(fault),
        }
    }
}

// The atom of a rope in which an offset lies.
fn index_in(rope: &Rope, unit: Unit, offset: u64) -> Result<u32, Fault>
    ensures ok { IfOk result (λ index. (offset ≤ width unit (concat rope.now)) × IsIndexOf unit rope.now offset index) }
    ensures err { IfErr result (λ fault. (fault ≡ Place) × (width unit (concat rope.now) < offset)) }
{
    if offset > rope.len_in(unit) {
        return Err(Fault::Place);
    }
    Ok(rope.index_of(unit, offset))
}
