//! Tests of journals: their bytes, what a crash leaves of them at each moment, bytes that are none, a file of the
//! system.
//!
//! Contracts say what a journal is and what a crash may leave; here stand worked bytes, with checks that another
//! program computed, and that memory is found where there is some. A module is named by what it tries.
#![tactic(auto)]

#[cfg(test)]
mod bad_bytes;
#[cfg(test)]
mod crashes;
#[cfg(test)]
mod file;
#[cfg(test)]
mod inputs;
#[cfg(test)]
mod written;
