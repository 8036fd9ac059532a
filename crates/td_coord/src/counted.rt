ghost use Rattle.std.specs.Prelude.{◌≡◌};
ghost use Rattle.td_coord.specs.Tally.{told};
ghost use Rattle.td_coord.specs.TallyParts.{is_decision};

/// What a vote brings, and how a proposal stands.
#[derive(Clone, Copy, Debug, PartialEq, Eq)]
pub enum Counted {
    /// The proposal is undecided: votes are missing.
    Wait,
    /// It is committed: every site said Yes.
    Commit,
    /// It is aborted: a site said No, or it was cancelled.
    Abort,
    /// The vote changes nothing: it is counted, or the proposal is decided.
    Repeat,
}

impl Counted {
    // How a proposal with this decision stands.
    pub(crate) fn told(decision: Option<bool>) -> Counted
        ensures { result ≡ told decision }
    {
        match decision {
            None => Counted::Wait,
            Some(true) => Counted::Commit,
            Some(false) => Counted::Abort,
        }
    }

    // Whether it decides the proposal.
    pub(crate) fn is_decision(&self) -> bool
        ensures { result ≡ is_decision self.now }
    {
        matches!(self, Counted::Commit | Counted::Abort)
    }
}
