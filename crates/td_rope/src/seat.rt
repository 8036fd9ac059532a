// Where an atom is among parts, by its index or by an offset, and room for more.
ghost use Rattle.std.specs.Prelude.{◌≡◌, ◌<◌, ◌≤◌, ◌^◌, length, flat_map, OnOk};
ghost use Rattle.td_rope.specs.AmongParts.{IsAmongParts};
ghost use Rattle.td_rope.specs.Units.{IsIndexOf};

use crate::part::Part;
use crate::unit::Unit;
use std::alloc::Global;
use td_base::Memory;

/// A place among parts: in which part, and at which index of it.
#[derive(Clone, Copy, Debug, PartialEq, Eq)]
pub struct Seat {
    pub part: usize,
    pub index: u32,
}

/// Where the atom at an index is. The index behind the last atom is that behind the last of the last part.
pub fn find<P: Part>(parts: &[P], index: u32) -> Seat
    requires some { 0 < length parts.now }
    requires index { index ≤ length (flat_map P.atoms parts.now) }
    ensures { IsAmongParts P.atoms parts.now index result.part result.index }
{
    let mut part = 0;
    let mut rest = index;
    while part + 1 < parts.len() && rest >= parts[part].len() {
        rest -= parts[part].len();
        part += 1;
    }
    Seat { part, index: rest }
}

/// The index of the atom in which an offset lies.
pub fn index_of<P: Part>(parts: &[P], unit: Unit, offset: u64) -> u32
    requires { length (flat_map P.atoms parts.now) < 2 ^ 32 }
    ensures { IsIndexOf unit (flat_map P.atoms parts.now) offset result }
{
    let mut start = 0;
    let mut rest = offset;
    for part in parts {
        let size = part.size();
        let width = size.width_in(unit);
        if rest < width {
            return start + part.index_of(unit, rest);
        }
        rest -= width;
        start += size.atoms;
    }
    start
}

/// Makes room for more at an index: a part that is full is parted, and where there is none, one is made.
pub fn make_room<P: Part>(parts: &mut Vec<P>, alloc: Global, index: u32) -> Result<(), Memory>
    requires { index ≤ length (flat_map P.atoms parts.old.items) }
    ensures same { flat_map P.atoms parts.new.items ≡ flat_map P.atoms parts.old.items }
    ensures some { OnOk result (0 < length parts.new.items) }
{
    if parts.is_empty() {
        parts.push(P::new(alloc))?;
        return Ok(());
    }
    let seat = find(parts, index);
    if !parts[seat.part].is_full() {
        return Ok(());
    }
    parts.reserve(1)?;
    let rest = parts[seat.part].part(alloc, seat.index)?;
    parts.insert(seat.part + 1, rest).unwrap();
    Ok(())
}
