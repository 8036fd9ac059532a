use td_op::Op;

/// An operation that waits, with the number by which it is stored.
#[derive(Clone, Copy, Debug, PartialEq, Eq)]
pub struct Waiting {
    pub op: Op,
    pub number: u32,
}
