// What is put among items, and taken out. A turn of a slice would clear some kilobytes first.
ghost use Rattle.std.specs.Prelude.{◌≡◌, ◌<◌, ◌≤◌, ◌+◌, ◌^◌, ◌++◌, length, take, drop, vec_len, vec_capacity, OnOk, OnErr};

use crate::item::Item;
use td_base::Memory;

/// Puts a piece at a place. What stands behind the place is laid in another list meanwhile: two calls that copy memory
/// cost less than to move some tens of items one by one.
pub fn put_in(
    items: &mut Vec<Item>,
    place: usize,
    piece: &[Item],
    aside: &mut Vec<Item>,
) -> Result<(), Memory>
    requires { place ≤ length items.old.items }
    ensures ok { OnOk result (items.new.items
        ≡ take place items.old.items ++ piece.now ++ drop place items.old.items) }
    ensures err { OnErr result (items.new.items ≡ items.old.items) }
{
    make_room(items, piece.len())?;
    aside.clear();
    aside.extend_from_slice(&items[place..])?;
    items.truncate(place);
    items.extend_from_slice(piece).unwrap();
    items.extend_from_slice(aside).unwrap();
    Ok(())
}

// Room is made for so many items more than are put.
const AHEAD: usize = 8;

// Makes room for more items, and some that follow. Room for twice the items, as `reserve` makes it, would mostly stay
// empty: a chunk is parted before it fills it.
fn make_room(items: &mut Vec<Item>, more: usize) -> Result<(), Memory>
    requires { more < 2 ^ 63 }
    ensures items { items.new.items ≡ items.old.items }
    ensures ok { OnOk result (vec_len items.new + more ≤ vec_capacity items.new) }
{
    if more <= items.capacity() - items.len() {
        return Ok(());
    }
    items.reserve_exact(more + AHEAD)?;
    Ok(())
}

/// Puts a piece at a place, in the room that there is. What stands behind the place is moved item by item: it is to be
/// short.
pub fn put_each(items: &mut Vec<Item>, place: usize, piece: &[Item])
    requires place { place ≤ length items.old.items }
    requires room { vec_len items.old + length piece.now ≤ vec_capacity items.old }
    ensures { items.new.items ≡ take place items.old.items ++ piece.now ++ drop place items.old.items }
{
    let end = items.len();
    let behind = place + piece.len();
    items.extend_from_slice(piece).unwrap();
    items.copy_within(place..end, behind);
    items[place..behind].copy_from_slice(piece);
}

/// Lays others over the items from a place up to another.
pub fn lay_over(items: &mut Vec<Item>, from: usize, to: usize, over: &[Item])
    requires long { from + length over.now ≡ to }
    requires within { to ≤ length items.old.items }
    ensures { items.new.items ≡ take from items.old.items ++ over.now ++ drop to items.old.items }
{
    items[from..to].copy_from_slice(over);
}

/// Takes out the items from a place up to another.
pub fn take_out(items: &mut Vec<Item>, from: usize, to: usize)
    requires from { from ≤ to }
    requires to { to ≤ length items.old.items }
    ensures { items.new.items ≡ take from items.old.items ++ drop to items.old.items }
{
    let end = items.len();
    items.copy_within(to..end, from);
    items.truncate(end - (to - from));
}
