use td_base::{AtomId, Dot};

/// What a site answers to an input.
#[derive(Clone, Copy, Debug, PartialEq, Eq)]
pub enum Reply {
    /// The request was done by the operation with this dot.
    Made { dot: Dot },
    /// The proposal was given up.
    Cancelled,
    /// Refused: a slot held for a proposal would change, or overlaps the one proposed. This is the least such
    /// proposal.
    Held { by: Dot },
    /// Refused: the index is past the live atoms, of which there are `len`.
    Position { len: u32 },
    /// Refused: there is no such atom, or for an edit no such live atom.
    Gone { id: AtomId },
    /// Refused: with so many operations made and so many own proposals undecided, no number of an operation is left.
    Limit { made: u32, undecided: u32 },
    /// Refused: the site made no such proposal, or it is decided.
    NotOpen { proposal: Dot },
    /// The message was taken.
    New,
    /// The operation waits for others that it depends on.
    Later,
    /// The message came before, or the vote comes after the decision.
    Repeat,
    /// The message is none that another site of this buffer sends here.
    Unfit { why: Why },
    /// The waiting operation with this dot was taken.
    Taken { dot: Dot },
    /// The waiting operation with this dot is unfit and was dropped.
    Dropped { dot: Dot, why: Why },
    /// No waiting operation is ready.
    Idle,
}

/// Why a message is unfit.
#[derive(Clone, Copy, Debug, PartialEq, Eq)]
pub enum Why {
    /// An operation for another number of sites, or a vote that names a site past that number.
    Size,
    /// An operation of this site itself, or one that depends on an operation that this site has not made.
    Own,
    /// The slot's atom, or the target, is no atom of the document.
    Atom,
    /// There is no such proposal, or none that may be decided by this operation.
    Proposal,
    /// A commit of a proposal to which this site did not say yes.
    Vote,
    /// A vote on a proposal of another site.
    Address,
}
