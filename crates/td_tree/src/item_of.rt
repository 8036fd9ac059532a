// The items of rows.
ghost use Rattle.std.specs.Prelude.{◌≡◌, ◌<◌, ◌^◌};
ghost use Rattle.td_tree.specs.Parts.{open_item, atom_item, close_item};

use td_list::Item;

/// The bracket that opens a row.
pub fn open_item(row: u32) -> Item
    requires { row < 2 ^ 30 }
    ensures { result ≡ open_item row }
{
    Item::new(3 * row, 0, false)
}

/// A row itself, or a leaf of which it is the top, with so many live rows.
pub fn atom_item(row: u32, weight: u32) -> Item
    requires known { row < 2 ^ 30 }
    requires light { weight < 2 ^ 31 }
    ensures { result ≡ atom_item row weight }
{
    Item::new(3 * row + 1, weight, true)
}

/// The bracket that closes a row.
pub fn close_item(row: u32) -> Item
    requires { row < 2 ^ 30 }
    ensures { result ≡ close_item row }
{
    Item::new(3 * row + 2, 0, false)
}
