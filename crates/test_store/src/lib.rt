//! Tests of `td_store`: operations of every kind are read back, and what they have in common is stored once; so are
//! operations that are typed behind one another.
#![tactic(auto)]

#[cfg(test)]
mod ops;
#[cfg(test)]
mod typed;
