//! Paths in the tree of a Treedoc document, and slots, by their atom or by its path (Preguiça et al. 2009).
//!
//! `infix` is the order of the infix walk, `contains` and `overlap` say which slots have which rows, `shape_path` and
//! `shape_index` where the atoms of an array hang. All are the definitions of `specs/Infix.antt`,
//! `specs/SlotPaths.antt` and `specs/Shape.antt`: begin there.
#![tactic(auto)]

mod infix_order;
mod laws;
mod path;
mod shape;
mod slot;
mod slot_path;

pub use infix_order::infix;
pub use laws::{
    an_array_has_a_short_path_for_each_atom, equal_slots_are_one, infix_is_a_total_order,
    slots_stand_beside_their_node, slots_that_do_not_overlap_are_apart,
};
pub use path::Path;
pub use shape::{shape_index, shape_path};
pub use slot::Slot;
pub use slot_path::{SlotPath, contains, goes_on, overlap};
