use std::collections::LinkedList;

/// What a pass knows: whether it may push and pop, the mark once there is one, and what it pushed and popped. No value
/// of it is made.
pub struct Log<T, M> {
    pub pushes: bool,
    pub pops: bool,
    pub mark: Option<M>,
    pub sent: LinkedList<T>,
    pub taken: LinkedList<T>,
}
