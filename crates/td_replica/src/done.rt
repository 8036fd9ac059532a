use crate::last_change::LastChange;
use td_op::Reply;

/// What a step did.
#[derive(Clone, Copy, Debug, PartialEq, Eq)]
pub struct Done {
    pub reply: Reply,
    /// What it did to the list of live atoms.
    pub change: LastChange,
    /// The number of the operation that was made or given, where it is stored.
    pub number: Option<u32>,
}
