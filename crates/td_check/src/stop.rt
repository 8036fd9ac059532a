use crate::verdict::Fault;

/// Where the replay stops: the line, from 1, and what is wrong there.
#[derive(Clone, Copy, Debug, PartialEq, Eq)]
pub(crate) struct Stop {
    pub(crate) line: u32,
    pub(crate) fault: Fault,
}

/// What a site or a round comes to.
#[derive(Clone, Copy, Debug, PartialEq, Eq)]
pub(crate) enum Went {
    Stopped { stop: Stop },
    /// Nothing is left that can be done; whether something was.
    Rests { moved: bool },
}
