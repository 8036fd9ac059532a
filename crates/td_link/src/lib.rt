//! A queue of a fixed size between two threads, seen from its two ends.
//!
//! What one end has sent is what the other has taken, and then what still lies between; and every item fits the mark
//! on which both ends agreed. Begin at `tx` and `rx`. `specs/Ends.antt` says what contracts see of an end,
//! `specs/Moments.antt` how a call tells that it found the queue empty or full, and `specs/Rule.antt` what each step
//! of either thread keeps.
#![tactic(auto)]

mod crossing;
mod full;
mod item;
mod left;
mod log;
mod opening;
mod rule;
mod rx;
mod settling;
mod steps;
mod tx;

pub use full::Full;
pub use item::Item;
pub use left::Left;
pub use opening::link;
pub use rx::Rx;
pub use settling::settle;
pub use tx::Tx;
