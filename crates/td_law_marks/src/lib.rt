//! Marks and texts together: in every consistent family marked texts converge, and commits leave them, whatever was
//! flattened. It has no code: each law is the contract of a function with an empty body.
//!
//! Begin at `specs/Promises.antt`. What a mark is stands in `specs/Mark.antt` of `td_marks`.
#![tactic(auto)]

mod laws;

pub use laws::{commits_keep_the_marks, marked_texts_converge};
