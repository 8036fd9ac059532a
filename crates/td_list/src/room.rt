// Room in lists that grow long.
ghost use Rattle.std.specs.Prelude.{◌≡◌, ◌<◌, ◌≤◌, ◌+◌, ◌/◌, max, vec_len, vec_capacity, OnOk, OnErr};

use td_base::Memory;

/// Makes room for so many more. Where there is too little, a list gets room for a quarter of what it has, or for what is
/// asked if that is more: twice the room, as `reserve` makes it, would mostly stay empty in a long list.
pub fn reserve_by_quarter<T>(items: &mut Vec<T>, more: usize) -> Result<(), Memory>
    ensures items { items.new.items ≡ items.old.items }
    ensures ok { OnOk result (vec_len items.new + more ≤ vec_capacity items.new) }
    ensures kept { vec_len items.old + more ≤ vec_capacity items.old
        → vec_capacity items.new ≡ vec_capacity items.old }
    ensures grown { OnOk result (vec_capacity items.old < vec_len items.old + more
        → vec_capacity items.new ≡ vec_len items.old + max more (vec_len items.old / 4)) }
    ensures full { OnErr result (vec_capacity items.old < vec_len items.old + more) }
{
    if more > items.capacity() - items.len() {
        items.reserve_exact(more.max(items.len() / 4))?;
    }
    Ok(())
}
