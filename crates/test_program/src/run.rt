//! Scripts as bytes in and bytes out.
mod faults;
mod flattens;
mod generated;
mod kept;
mod large;
mod live;
mod merges;
mod pastes;
mod plays;
mod streams;
mod stress;
mod verdicts;
mod words;
