use std::collections::LinkedList;
use td_base::Atom;

/// An entry of the history of publishes. No value of it is made.
pub struct Publish {
    /// How many entries the history of the replica had.
    pub upto: u64,
    pub atoms: LinkedList<Atom>,
    /// 0 for an ordinary publish; by which the writer ends, a number that goes down to 1.
    pub last: u64,
}
