ghost use Rattle.std.specs.Prelude.{◌≡◌, ◌≤◌};
ghost use Rattle.td_wire.specs.Reading.{Gives};
ghost use Rattle.td_input.specs.declared.kind.TheConstants.{INSERT, PASTE_AFTER};
ghost use Rattle.td_input.specs.Reading.{request_at, fields_at, index_at, side_at, place_at, one_atom_at};

use crate::kind::{
    BEHIND, CANCEL, DELETE, DELETE_ATOM, INSERT, INSERT_AFTER, PASTE, PASTE_AFTER, PROPOSE,
    PROPOSE_AT, START,
};
use td_base::{Atom, AtomId, Bit, MAX_ATOM_LEN, MAX_SITE};
use td_op::Request;
use td_wire::{Fault, Format, Reader};

#[tactic(auto, unfolding(crate::specs::Reading::request_at))]
pub(crate) fn request(reader: &mut Reader<'_>) -> Result<Request, Fault>
    ensures { Gives result reader.new.rest.now (request_at reader.old.rest.now) }
{
    let kind = reader.byte(INSERT, PASTE_AFTER)?;
    fields(reader, kind)
}

// The fields of a request of this kind.
#[tactic(auto, unfolding(crate::specs::Reading::fields_at))]
fn fields(reader: &mut Reader<'_>, kind: u8) -> Result<Request, Fault>
    requires least { INSERT ≤ kind }
    requires most { kind ≤ PASTE_AFTER }
    ensures { Gives result reader.new.rest.now (fields_at kind reader.old.rest.now) }
{
    match kind {
        INSERT => {
            let index = index(reader)?;
            let atom = atom(reader)?;
            Ok(Request::Insert { index, atom })
        }
        INSERT_AFTER => {
            let after = place(reader)?;
            let atom = atom(reader)?;
            Ok(Request::InsertAfter { after, atom })
        }
        DELETE => {
            let index = index(reader)?;
            Ok(Request::Delete { index })
        }
        DELETE_ATOM => {
            let id = reader.identity(Format::Two, MAX_SITE)?;
            Ok(Request::DeleteAtom { id })
        }
        PROPOSE => {
            let slot = reader.slot(Format::Two, MAX_SITE)?;
            Ok(Request::Propose { slot })
        }
        PROPOSE_AT => {
            let index = index(reader)?;
            let bit = side(reader)?;
            Ok(Request::ProposeAt { index, bit })
        }
        CANCEL => {
            let proposal = reader.dot(MAX_SITE)?;
            Ok(Request::Cancel { proposal })
        }
        PASTE => {
            let index = index(reader)?;
            let run = reader.run(Format::Two)?;
            Ok(Request::Paste { index, run })
        }
        _ => {
            let after = place(reader)?;
            let run = reader.run(Format::Two)?;
            Ok(Request::PasteAfter { after, run })
        }
    }
}

#[tactic(auto, unfolding(crate::specs::Reading::index_at))]
fn index(reader: &mut Reader<'_>) -> Result<u32, Fault>
    ensures { Gives result reader.new.rest.now (index_at reader.old.rest.now) }
{
    let first = reader.byte(0, u8::MAX)?;
    let second = reader.byte(0, u8::MAX)?;
    let third = reader.byte(0, u8::MAX)?;
    let fourth = reader.byte(0, u8::MAX)?;
    Ok(u32::from_be_bytes([first, second, third, fourth]))
}

#[tactic(auto, unfolding(crate::specs::Reading::side_at))]
fn side(reader: &mut Reader<'_>) -> Result<Bit, Fault>
    ensures { Gives result reader.new.rest.now (side_at reader.old.rest.now) }
{
    let bit = reader.byte(0, 1)?;
    Ok(if bit == 0 { Bit::Left } else { Bit::Right })
}

// The atom that something is put after, or none.
#[tactic(auto, unfolding(crate::specs::Reading::place_at))]
fn place(reader: &mut Reader<'_>) -> Result<Option<AtomId>, Fault>
    ensures { Gives result reader.new.rest.now (place_at reader.old.rest.now) }
{
    let tag = reader.byte(START, BEHIND)?;
    if tag == START {
        return Ok(None);
    }
    let id = reader.identity(Format::Two, MAX_SITE)?;
    Ok(Some(id))
}

// A run of one atom.
#[tactic(auto, unfolding(crate::specs::Reading::one_atom_at))]
fn atom(reader: &mut Reader<'_>) -> Result<Atom, Fault>
    ensures { Gives result reader.new.rest.now (one_atom_at reader.old.rest.now) }
{
    reader.byte(1, 1)?;
    let len = reader.byte(1, MAX_ATOM_LEN as u8)?;
    reader.atom(len)
}
