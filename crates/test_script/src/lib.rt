//! Tests of scripts: those of each language as they are read, the first fault of those that are none, texts as they are
//! cut, and scripts that are generated.
//!
//! Contracts say which bytes spell which script; here stand scripts with what is read of them, published samples of
//! clusters, and that memory is found where there is some. `atom_list` and `clusters` try td_text, and `generator`
//! td_gen.
#![tactic(auto)]

#[cfg(test)]
mod atom_list;
#[cfg(test)]
mod clusters;
#[cfg(test)]
mod generator;
#[cfg(test)]
mod kept;
#[cfg(test)]
mod live;
#[cfg(test)]
mod played;
#[cfg(test)]
mod shell;
