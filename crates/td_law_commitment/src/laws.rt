// What votes and decisions come to in a consistent family, each law as the contract of a function with an empty body.
ghost use Rattle.td_machine.specs.History.{Family, IsConsistent};
ghost use Rattle.td_law_commitment.specs.Promises.{OneDecision, DecisionsAgree, NoConcurrentEdit, CommitsKeepText};
ghost use Rattle.td_law_commitment.specs.Voted.{IsVoted};

/// One decision: no two operations decide one proposal, and at every moment each site knows that decision or none.
pub fn proposals_are_decided_once()
    ensures once { (family : Family) → IsConsistent family → OneDecision family }
    ensures followed { (family : Family) → IsConsistent family → DecisionsAgree family }
{}

/// No concurrent edit of a committed slot.
pub fn no_edit_is_beside_a_commit()
    ensures { (family : Family) → IsConsistent family → NoConcurrentEdit family }
{}

/// Commits keep the text, also where a site's only vote is its own and the commit is made in the step that proposes.
pub fn commits_keep_the_text()
    ensures { (family : Family) → IsConsistent family → CommitsKeepText family }
{}

/// Each site has voted on the proposal of each commit; it holds the slot until it has the commit; what is held lies
/// apart; commits that overlap come in turn; and an edit in the slot was known to the proposer, or made after the
/// commit.
pub fn families_are_voted()
    ensures { (family : Family) → IsConsistent family → IsVoted family }
{}
