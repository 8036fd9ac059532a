ghost use Rattle.std.specs.Prelude.{◌≡◌};
ghost use Rattle.td_op.specs.Op.{body_site};

use td_base::{AtomId, Dot, Run, Site};
use td_path::Slot;

/// What an operation does to the document (Preguiça et al. 2009; the last three are the steps of a flatten, a
/// two-phase commitment after Gray 1978).
#[derive(Clone, Copy, Debug, PartialEq, Eq)]
pub enum Body {
    /// Puts the atoms of the run into the slot. The first has the identity of the operation's dot and offset 0, and so
    /// on.
    Insert { slot: Slot, run: Run },
    /// Makes the atom a tombstone.
    Delete { target: AtomId },
    /// Asks all sites whether the slot may be flattened. The operation's dot is the name of the proposal.
    Propose { slot: Slot },
    /// Flattens the slot of the proposal.
    Commit { proposal: Dot },
    /// Gives the proposal up.
    Abort { proposal: Dot },
}

impl Body {
    // The site that the body names: of the slot's atom, of the target or of the proposal.
    pub(crate) fn site(&self) -> Option<Site>
        ensures { result ≡ body_site self.now }
    {
        match *self {
            Body::Insert { slot, .. } | Body::Propose { slot } => slot.site(),
            Body::Delete { target } => Some(target.dot.site),
            Body::Commit { proposal } | Body::Abort { proposal } => Some(proposal.site),
        }
    }
}
