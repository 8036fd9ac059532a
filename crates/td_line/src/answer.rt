use td_op::Reply;

/// What came of a call: the number of its entry in the history of its site, from 1, and the reply.
#[derive(Clone, Copy, Debug, PartialEq, Eq)]
pub struct Answer {
    pub call: u32,
    pub entry: u64,
    pub reply: Reply,
}
