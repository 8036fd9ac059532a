// Numbers by the names of items.
ghost use Rattle.std.specs.Prelude.{◌≡◌, ◌<◌, ◌≤◌, ◌^◌, ℕ, [], length, get_or, OnOk};
ghost use Rattle.td_list.specs.Items.{IsItem};

use crate::item::Item;
use crate::room::reserve_by_quarter;
use td_base::Memory;

/// Writes down one number for all these items.
pub fn settle(homes: &mut Vec<u32>, items: &[Item], home: u32)
    requires within { (x : ℕ) → IsItem x items.now → x < length homes.old.items }
    ensures length { length homes.new.items ≡ length homes.old.items }
    ensures inside { (x : ℕ) → IsItem x items.now → get_or homes.new.items x 0 ≡ home }
    ensures outside { (x : ℕ) → (IsItem x items.now → ⊥) → get_or homes.new.items x 0 ≡ get_or homes.old.items x 0 }
{
    for i in 0..items.len() {
        homes[items[i].name() as usize] = home;
    }
}

/// Makes room for the numbers of these items.
pub fn grow(homes: &mut Vec<u32>, items: &[Item]) -> Result<(), Memory>
    ensures old { (x : ℕ) → x < length homes.old.items
        → (x < length homes.new.items) × (get_or homes.new.items x 0 ≡ get_or homes.old.items x 0) }
    ensures ok { OnOk result ((x : ℕ) → IsItem x items.now → x < length homes.new.items) }
{
    for i in 0..items.len() {
        reach(homes, items[i].name())?;
    }
    Ok(())
}

// Room is made for so many numbers at a time: who types makes new names one after another.
const AHEAD: usize = 64;

// Makes room for one number.
fn reach(homes: &mut Vec<u32>, name: u32) -> Result<(), Memory>
    ensures old { (x : ℕ) → x < length homes.old.items
        → (x < length homes.new.items) × (get_or homes.new.items x 0 ≡ get_or homes.old.items x 0) }
    ensures ok { OnOk result (name < length homes.new.items) }
{
    let name = name as usize;
    if homes.len() <= name {
        reserve_by_quarter(homes, name - homes.len() + AHEAD)?;
        homes.resize(name + AHEAD, 0)?;
    }
    Ok(())
}
