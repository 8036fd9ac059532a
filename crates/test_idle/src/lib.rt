//! Tests of the largest idle part of a document: worked examples, and drawn worlds in which both documents find one.
//!
//! Contracts say what each call does; here stand examples with expected values from outside. `examples` has those that
//! are worked out by hand, `drawn` those that are drawn, and `told` what is told of a site.
#![tactic(auto)]

#[cfg(test)]
mod drawn;
#[cfg(test)]
mod examples;
#[cfg(test)]
mod told;
