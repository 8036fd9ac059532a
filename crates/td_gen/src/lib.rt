//! Large scripts made by chance: three sites that insert and delete as the words of Pcg32 say, settle every 30 edits
//! and flatten every 300.
//!
//! `script_of` answers the one script of a size and a number. Begin at `specs/Generator.antt`, which is the rule. It
//! keeps for each site how many atoms the text there has at least, and asks for no index past them.
#![tactic(auto)]

mod edit;
mod generator;
mod laws;
mod least;
mod letters;
mod progress;

pub use generator::{MAX_SIZE, script_of};
pub use laws::generated_scripts_edit_and_flatten;
