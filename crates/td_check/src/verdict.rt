/// Whether a trace is one that live replicas may have made.
#[derive(Clone, Copy, Debug, PartialEq, Eq)]
pub enum Verdict {
    /// It is.
    Yes,
    /// It is not: the line, from 1, where that is found first. The line of `Size` is 0.
    No { line: u32, fault: Fault },
}

/// What is wrong with a trace; the first in this order is told.
#[derive(Clone, Copy, Debug, PartialEq, Eq)]
pub enum Fault {
    /// There are more than `MAX_TRACE` bytes.
    Size,
    /// The line is not one that a trace has there, or is missing.
    Form,
    /// The entry's reply is not that of its replica, or tells of something unfit.
    Reply,
    /// The entry takes what was not sent to its site.
    Missing,
    /// The call is not recorded, or its number is not the next one.
    Call,
    /// The text is not that behind so many entries, or the look is behind the call or the look before.
    Look,
    /// The request is the entry of no call, or of two.
    Alone,
    /// The text is not that of the replica at the end.
    Text,
    /// The replicas do not have the same operations at the end, or a proposal is undecided.
    Open,
}
