ghost use Rattle.std.specs.Prelude.{◌≡◌, Some, None};

use td_op::Reply;

/// Why a request of a kept script was not done.
#[derive(Clone, Copy, Debug, PartialEq, Eq)]
pub(crate) enum Refusal {
    /// The replica refused it, by this reply.
    Refused(Reply),
    /// Its record has no room on the disk, behind so many bytes.
    Full { len: u32 },
}

/// What came of edits: how many atoms were edited, and why not all.
#[derive(Clone, Copy, Debug, PartialEq, Eq)]
pub(crate) struct KeptOutcome {
    pub done: u32,
    pub refusal: Option<Refusal>,
}

impl KeptOutcome {
    /// So many were edited, and the next request was not done.
    pub(crate) fn refused(done: u32, refusal: Refusal) -> KeptOutcome
        ensures { result ≡ record { done = done; refusal = Some refusal } }
    {
        KeptOutcome {
            done,
            refusal: Some(refusal),
        }
    }

    /// All were edited.
    pub(crate) fn all(done: u32) -> KeptOutcome
        ensures { result ≡ record { done = done; refusal = None } }
    {
        KeptOutcome {
            done,
            refusal: None,
        }
    }
}
