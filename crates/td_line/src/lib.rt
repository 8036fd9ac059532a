//! The line between a worker and an editor: requests go one way, answers the other, and the editor looks at what the
//! site of the worker shows.
//!
//! Each request that is taken becomes one entry of the history, is shown, and only then answered; the answer tells
//! which entry it is, with the reply, and from then on the editor looks at no older text. Begin at `line`, `serving`
//! and `closing` for the worker's end and at `editor` for the editor's. `specs/Calls.antt` says when calls are recorded
//! in a history, `specs/Lines.antt` what a turn does for an editor, `specs/Editors.antt` what an editor is answered.
#![tactic(auto)]

mod answer;
mod answering;
mod ask;
mod closing;
mod crossing;
mod doing;
mod editor;
mod gate;
mod line;
mod not_sent;
mod opening;
mod report;
mod serving;

pub use answer::Answer;
pub use ask::Ask;
pub use editor::Editor;
pub use gate::{Always, Gate};
pub use line::Line;
pub use not_sent::NotSent;
pub use opening::open_line;
pub use report::Report;

#[cfg(test)]
mod tests;
