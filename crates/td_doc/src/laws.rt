// What the definitions come to, each law as the contract of a function with an empty body.

mod array;
mod deletion;
mod flatten;
mod insertion;
mod live;
mod slots;

pub use array::an_array_has_its_atoms_in_their_order;
pub use deletion::{a_delete_keeps_the_rules, a_delete_marks_one_row};
pub use flatten::{
    flatten_keeps_order_and_subtrees, flatten_keeps_the_rules, flatten_keeps_the_text,
    flatten_puts_an_array_in_place,
};
pub use insertion::{
    a_run_keeps_the_rules, a_run_stands_at_its_index, a_run_stands_together,
    a_run_stands_together_in_any_slot, insertion_keeps_the_rules, the_allocated_slot_is_empty,
    what_is_placed_stands_there, what_is_typed_stands_at_its_index,
};
pub use live::{
    a_delete_cuts_one_atom_shown, a_flatten_changes_no_atom_shown,
    a_live_row_is_found_at_its_index, a_run_is_put_among_the_atoms_shown,
};
pub use slots::{rows_of_a_slot_stand_together, slots_apart_share_no_row};
