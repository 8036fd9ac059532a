//! A Treedoc document (Preguiça et al. 2009): the list of its rows in infix order.
//!
//! `Doc` is what a document answers, stated on the list of rows; `Rows` is the plain document, a vector of rows with
//! whole paths; `alloc_slot` is where what is typed goes; `contains` is which slots lie in which. Begin at
//! `specs/Document.antt`, which says what a document is, and at `laws`, which says what the definitions come to: what
//! is placed after a row stands right after it, a flatten changes no text, slots apart share no row.
#![tactic(auto)]

mod alloc;
mod array;
mod containment;
mod doc;
mod dots;
mod flatten;
mod insertion;
mod laws;
mod path_row;
mod rows;
mod search;
mod slots;
mod text;

pub use alloc::alloc_slot;
pub use containment::contains;
pub use doc::{Doc, DocFault, Row};
pub use dots::add_dot;
pub use laws::{
    a_delete_cuts_one_atom_shown, a_delete_keeps_the_rules, a_delete_marks_one_row,
    a_flatten_changes_no_atom_shown, a_live_row_is_found_at_its_index,
    a_run_is_put_among_the_atoms_shown, a_run_keeps_the_rules, a_run_stands_at_its_index,
    a_run_stands_together, a_run_stands_together_in_any_slot,
    an_array_has_its_atoms_in_their_order, flatten_keeps_order_and_subtrees,
    flatten_keeps_the_rules, flatten_keeps_the_text, flatten_puts_an_array_in_place,
    insertion_keeps_the_rules, rows_of_a_slot_stand_together, slots_apart_share_no_row,
    the_allocated_slot_is_empty, what_is_placed_stands_there, what_is_typed_stands_at_its_index,
};
pub use rows::Rows;
