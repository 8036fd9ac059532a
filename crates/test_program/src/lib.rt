//! Tests of the program: whole runs as bytes in and bytes out.
//!
//! Contracts say what each call does; here stand worked examples with their expected bytes.
#![tactic(auto)]

#[cfg(test)]
mod run;
