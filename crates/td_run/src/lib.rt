//! The program's run: from the bytes of an input to the bytes that it prints.
//!
//! Begin at `specs/Printing.antt`, what each command of a script does and prints; at `program`, the call on top; and at
//! `specs/Answered.antt`, what it promises. `reading` has what comes of an input by its language: of a script for
//! `play`, of a live script for `live`, of a kept script for `kept`, of a trace for `check`. A `Player` is a world in
//! which a script is played, with what was printed so far; `edits`, `flattens`, `giving`, `marking` and `showing` are
//! its commands. `kept` has a player of its own, of kept scripts.
#![tactic(auto)]

mod answer;
mod edits;
mod ending;
mod fault;
mod flattens;
mod generated;
mod giving;
mod judging;
mod kept;
mod laws;
mod limits;
mod marking;
mod play;
mod player;
mod program;
mod reading;
mod showing;
mod status;
mod typing;
mod verdict_line;
mod words;

pub use judging::{a_trace_with_yes_keeps_the_promises, what_live_prints_passes};
pub use laws::{outputs_are_unique, scripts_have_an_output};
pub use limits::the_limits_are_these;
pub use program::{run, run_live, run_plain};
pub use status::Status;
pub use typing::typing_is_typing;
pub use words::{Language, is_live};
