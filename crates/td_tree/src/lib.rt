//! The fast document: its rows as one list of tokens with handles, so that no call walks a tree, however deep it is.
//!
//! `Tree` is the document. `tokens` keeps the tokens, the rows by number and the arrays of leaves; `explode` opens
//! leaves on the way of an edit, by the piece that `way` gathers; `place` finds where a new row goes, `growth`,
//! `deletion` and `flatten` change the rows, and `order`, `side`, `count`, `known` and `text` read them; `last` is what
//! a tree remembers of the row put last. Begin at `specs/Parts.antt`, which says what the parts of a tree are and what
//! holds of them; what the tokens mean stands in `td_brackets`.
#![tactic(auto)]

mod count;
mod deletes;
mod deletion;
mod edits;
mod explode;
mod first_delete;
mod flatten;
mod found;
mod growth;
mod item_of;
mod kept_atom;
mod kept_rows;
mod kept_state;
mod known;
mod last;
mod leaf;
mod lookup;
mod new_rows;
mod order;
mod part;
mod place;
mod row_atom;
mod row_place;
mod side;
mod states;
mod stretch;
mod text;
mod tokens;
mod told;
mod tree;
mod tree_row;
mod way;

pub use tree::Tree;
