//! Documents as flat lists of tokens, so that no call walks a tree: an opening bracket, an atom and a closing bracket
//! for each row, and one leaf for an array of rows that have no brackets yet.
//!
//! There is no code here: the crate says what a list of tokens means, and `laws` what follows: what the brackets of a
//! row tell of its slots, where a new row goes, and that a leaf may be exploded and a slot made a leaf. Begin at
//! `specs/Brackets.antt`.
#![tactic(auto)]

mod laws;

pub use laws::{
    a_leaf_explodes_down_to_each_row, a_new_row_is_an_insertion, a_run_may_be_put_as_one_leaf,
    a_walk_passes_leaves_by_their_top, a_word_may_be_made_a_leaf, brackets_part_the_tokens,
    exploding_changes_no_row, exploding_leaves_brackets, no_token_stands_twice,
};
