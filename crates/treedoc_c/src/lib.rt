//! Treedoc for C: a session, with a function for each of its calls. `include/treedoc.h` declares them.
//!
//! C holds a `td_session`, which begins as zeros. Each function is a call of `td_session::Session`, answered in numbers
//! (`specs/Numbers.antt`); a closed session answers that it is closed, and stays so. What C owes is in the header:
//! nothing checks it. Begin at `calls` and at `specs/Asked.antt`; `handle` is how C can hold what it must not touch.
#![tactic(auto)]

mod answer;
mod calls;
mod change;
mod handle;
mod held;
mod opening;
mod parts;
mod places;
mod reads;
mod saving;
mod status;
mod written;
