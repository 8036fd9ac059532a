//! The one order of all atoms that operations insert, and the text that they make, by what each operation wrote and
//! knew alone: no path, no document, no message and no order of arrival is looked at.
//!
//! Begin at `specs/Order.antt`: the operations are lined up (`specs/LineUp.antt`), and the atoms of each insertion are
//! placed among those of the insertions before it (`specs/Place.antt`, `specs/Under.antt`). `order_of` and `show_of`
//! compute both as they are written, slowly. `laws` says what the definitions come to; `standing`, that the order is
//! the only list that obeys a few rules on two atoms (`specs/Standing.antt`); `part`, that a part of the operations
//! has the order of the whole; `together`, that what hangs together stands together.
#![tactic(auto)]

mod atom_ids;
mod beside;
mod insertions;
mod laws;
mod line_up;
mod order;
mod part;
mod place;
mod show;
mod siblings;
mod standing;
mod together;
mod under;

pub use atom_ids::AtomIds;
pub use laws::{
    insertions_alone_fix_the_order, line_up_follows_the_past, line_up_is_in_order,
    order_has_each_atom_once, order_is_of_a_set, placing_moves_no_atom,
};
pub use line_up::dots_differ;
pub use order::order_of;
pub use part::{
    a_part_keeps_the_order, a_slot_used_once_has_epochs, a_small_history, epochs_are_needed,
};
pub use show::show_of;
pub use standing::{order_is_fixed_by_rules, under_goes_by_slots};
pub use together::what_hangs_together_stands_together;
