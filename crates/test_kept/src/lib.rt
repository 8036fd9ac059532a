//! Tests of replicas that crash: what a site has when it is opened again, and what it had released.
//!
//! Contracts say what each call does; here stand examples with expected values from outside. A module is named by the
//! library that it tries.
#![tactic(auto)]

#[cfg(test)]
mod kept;
