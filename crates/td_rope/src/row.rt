ghost use Rattle.std.specs.Prelude.{◌<◌, ◌^◌, length, flat_map};
ghost use Rattle.td_rope.specs.Sizes.{IsSize};

use crate::cutting::cut_beside;
use crate::part::Part;
use crate::seat::{find, index_of, make_room};
use crate::size::Size;
use crate::stretch::push_parts;
use crate::unit::Unit;
use std::alloc::Global;
use std::marker::Model;
use td_base::{Atom, Bytes, Memory, Run};

// So many parts stand in a row at most, but for the row of a whole text, which is not parted.
const FULL: usize = 128;

/// Parts that stand next to each other.
#[derive(Drop)]
pub struct Row<P: Part> {
    parts: Vec<P>,
    // how much all of them are
    size: Size,
}

impl<P: Part> Model for Row<P> {
    ghost use Rattle.std.specs.Prelude.{ℕ, List, flat_map};
    ghost use Rattle.td_rope.specs.Sizes.{IsSize};

    ghost Value = { List (List ℕ) };

    ghost view = { λ r. flat_map P.atoms r.parts.items };

    ghost invariant = { λ r. IsSize (flat_map P.atoms r.parts.items) r.size };
}

impl<P: Part> Part for Row<P> {
    ghost atoms = { λ r. r };

    fn new(alloc: Global) -> Row<P> {
        Row {
            parts: Vec::new(alloc),
            size: Size::none(),
        }
    }

    fn len(&self) -> u32 {
        self.size.atoms
    }

    fn size(&self) -> Size {
        self.size
    }

    fn is_full(&self) -> bool {
        self.parts.len() >= FULL
    }

    fn atom(&self, index: u32) -> Atom {
        let seat = find(&self.parts, index);
        self.parts[seat.part].atom(seat.index)
    }

    fn offset_of(&self, unit: Unit, index: u32) -> u64 {
        if self.parts.is_empty() {
            return 0;
        }
        let seat = find(&self.parts, index);
        let before = total(&self.parts[..seat.part]);
        before.width_in(unit) + self.parts[seat.part].offset_of(unit, seat.index)
    }

    fn index_of(&self, unit: Unit, offset: u64) -> u32 {
        let count = self.len();
        let width = self.size.width_in(unit);
        if offset >= width {
            return count;
        }
        index_of(&self.parts, unit, offset)
    }

    fn put(&mut self, alloc: Global, index: u32, run: &Run) -> Result<(), Memory> {
        make_room(&mut self.parts, alloc, index)?;
        let seat = find(&self.parts, index);
        let before = self.parts[seat.part].size();
        self.parts[seat.part].put(alloc, seat.index, run)?;
        let after = self.parts[seat.part].size();
        self.size = self.size.minus(&before).plus(&after);
        Ok(())
    }

    fn take_out(&mut self, index: u32) {
        let seat = find(&self.parts, index);
        let before = self.parts[seat.part].size();
        self.parts[seat.part].take_out(seat.index);
        let after = self.parts[seat.part].size();
        self.size = self.size.minus(&before).plus(&after);
        if after.atoms == 0 {
            self.parts.remove(seat.part);
        }
    }

    fn part(&mut self, alloc: Global, index: u32) -> Result<Row<P>, Memory> {
        if self.parts.is_empty() {
            return Ok(Row::new(alloc));
        }
        let seat = find(&self.parts, index);
        let cut = cut_beside(seat.part, self.parts.len());
        let parts = self.parts.split_off(cut)?;
        let size = total(&parts);
        self.size = self.size.minus(&size);
        Ok(Row { parts, size })
    }

    fn push_range(&self, from: u32, to: u32, text: &mut Bytes) -> Result<(), Memory> {
        if from >= self.len() {
            return Ok(());
        }
        push_parts(&self.parts, from, to, text)
    }
}

// How much these parts are.
fn total<P: Part>(parts: &[P]) -> Size
    requires { length (flat_map P.atoms parts.now) < 2 ^ 32 }
    ensures { IsSize (flat_map P.atoms parts.now) result }
{
    let mut total = Size::none();
    for part in parts {
        total = total.plus(&part.size());
    }
    total
}
