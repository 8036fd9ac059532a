//! Tests of marks: worked examples, and that memory is found where there is some.
//!
//! Contracts say what each call answers; here it is said of texts with marks, as they are seen. `examples` has the
//! tables, and `pair` what a row of them does.
#![tactic(auto)]

#[cfg(test)]
mod examples;
#[cfg(test)]
mod pair;
