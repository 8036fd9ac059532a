//! Tests of what is printed and read again: the lines of replicas, of marks, of crashes, of traces, and traces as they
//! are read.
//!
//! Contracts say which bytes each call gives; here stand worked examples with their expected bytes, and that memory is
//! found where there is some. A module is named by the library that it tries.
#![tactic(auto)]

#[cfg(test)]
mod reader;
#[cfg(test)]
mod report;
