//! Marks on atoms: names from 0 to 31, such as bold, a comment, a search hit, that stay on their atoms whatever is
//! edited or flattened.
//!
//! Operations of their own add a name to some atoms or remove it, and name the atoms by identity, never by a place. For
//! each atom and name they are an observed-remove set (Shapiro et al. 2011): a removal takes the adds that its maker
//! had seen, and an add made beside it stays. Begin at `marks`, and at `specs/Mark.antt` for when an atom has a name.
//! The marked text is `specs/Text.antt` and `text`, and `laws` says what the definitions come to.
#![tactic(auto)]

mod examples;
mod index;
mod laws;
mod mark_fault;
mod mark_op;
mod mark_taken;
mod marks;
mod piece;
mod text;

pub use examples::{an_add_stays_beside_a_removal, what_is_typed_between_is_not_marked};
pub use laws::{
    a_flatten_keeps_the_marks, a_removal_takes_what_it_had_seen, an_add_not_seen_stays,
    each_bit_tells_a_name, marks_are_of_a_set, pieces_are_the_longest,
};
pub use mark_fault::MarkFault;
pub use mark_op::{MAX_ATOMS, MarkOp, NAMES};
pub use mark_taken::MarkTaken;
pub use marks::Marks;
pub use piece::Piece;
pub use text::marked_text;
