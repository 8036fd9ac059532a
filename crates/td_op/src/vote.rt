use td_base::{Dot, Site};

/// A site's answer to a proposal, sent to the proposal's site.
#[derive(Clone, Copy, Debug, PartialEq, Eq)]
pub struct Vote {
    pub proposal: Dot,
    pub voter: Site,
    pub yes: bool,
}
