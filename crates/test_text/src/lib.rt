//! Tests of the buffer at rest: paths, lists, documents, the tree, operations and the order of their atoms.
//!
//! Contracts say what each call does; here stand worked examples with their expected values, comparisons with the plain
//! document, and that memory is found where there is some. A module is named by the library that it tries.
#![tactic(auto)]

#[cfg(test)]
mod base;
#[cfg(test)]
mod clock;
#[cfg(test)]
mod doc;
#[cfg(test)]
mod identities;
#[cfg(test)]
mod list;
#[cfg(test)]
mod op;
#[cfg(test)]
mod order;
#[cfg(test)]
mod path;
#[cfg(test)]
mod tree;
