//! Tests of what runs on threads: queues, views, sites, editors, rooms and the editors of a live script.
//!
//! No contract can say that threads ran or that a wait ended: that is seen here. A module is named by the library that
//! it tries.
#![tactic(auto)]

#[cfg(test)]
mod link;
#[cfg(test)]
mod live;
#[cfg(test)]
mod peer;
#[cfg(test)]
mod room;
#[cfg(test)]
mod rope;
#[cfg(test)]
mod site;
#[cfg(test)]
mod view;
