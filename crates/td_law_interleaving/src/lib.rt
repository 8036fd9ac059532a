//! What is typed stays whole, whoever types beside it: what a site types behind or in front of a letter hangs on the
//! letter, and nothing that was put by a site which had not seen the letter comes between. It has no code: each law
//! is the contract of a function with an empty body.
//!
//! Begin at `specs/Typing.antt`, what is said; `examples` are words typed at once, played by machines.
#![tactic(auto)]

mod examples;
mod laws;

pub use examples::{
    a_flatten_may_part_what_is_typed_later, who_knew_the_first_letter_may_come_between,
    words_typed_at_once_stay_whole,
};
pub use laws::{no_stranger_comes_between, what_is_typed_hangs_on_its_neighbour};
