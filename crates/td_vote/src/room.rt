ghost use Rattle.std.specs.Prelude.{◌≡◌, ◌<◌, ◌≤◌, vec_len, vec_capacity, OnOk, OnErr};

use td_base::Memory;

/// Makes room for one more where there is none, and takes no memory where there is some.
pub fn make_room<T>(items: &mut Vec<T>) -> Result<(), Memory>
    ensures items { items.new.items ≡ items.old.items }
    ensures len { vec_len items.new ≡ vec_len items.old }
    ensures room { OnOk result (vec_len items.new < vec_capacity items.new) }
    ensures kept { vec_len items.old < vec_capacity items.old → vec_capacity items.new ≡ vec_capacity items.old }
    ensures full { OnErr result (vec_capacity items.old ≤ vec_len items.old) }
{
    if items.len() < items.capacity() {
        return Ok(());
    }
    items.reserve(1)?;
    Ok(())
}
