//! Tests of replicas: what one makes and takes, how they vote, decide and merge, what is kept of it and sent.
//!
//! Contracts say what each call does; here stand worked examples with their expected values, as tables of steps, and
//! that memory is found where there is some. A module is named by the library that it tries.
#![tactic(auto)]

#[cfg(test)]
mod causal;
#[cfg(test)]
mod coord;
#[cfg(test)]
mod history;
#[cfg(test)]
mod replica;
#[cfg(test)]
mod vote;
#[cfg(test)]
mod wire;
#[cfg(test)]
mod world;
