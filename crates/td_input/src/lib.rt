//! Inputs as bytes, both ways: how a replica keeps what it was given.
//!
//! `write_input` makes the bytes of an input, and `read_input` is exact: it reads what an input is written as, and
//! nothing else. Begin at `specs/Spelling.antt`, which has the bytes field by field. That no bytes are two inputs is in
//! `laws`.
#![tactic(auto)]

mod kind;
mod laws;
mod reading;
mod request;
mod valid;
mod writing;

pub use laws::inputs_are_unique;
pub use reading::read_input;
pub use writing::{MAX_INPUT_LEN, write_input};
