use crate::answers::Answers;
use td_doc::Doc;
use td_replica::Replica;

/// What is left of a room.
#[derive(Drop)]
pub struct Closed<D: Doc> {
    /// The replicas of sites 1 to n, in this order.
    pub replicas: Vec<Replica<D>>,
    /// The answers of each editor, in the order in which the editors were given.
    pub answers: Vec<Answers>,
}
