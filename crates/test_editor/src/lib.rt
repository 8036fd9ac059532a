//! Tests of editors: that memory is found where there is some, and what screens hear of a text that two sites edit.
//!
//! A module is named by what it tries.
#![tactic(auto)]

#[cfg(test)]
mod editor;
