// What the definitions come to, each law as the contract of a function with an empty body.
ghost use Rattle.std.specs.Prelude.{◌≡◌, ℕ, List};
ghost use Rattle.td_path.specs.declared.slot.Slot.{Slot};
ghost use Rattle.td_doc.specs.Document.{DocRow};
ghost use Rattle.td_machine.specs.Hold.{Hold};
ghost use Rattle.td_machine.specs.Log.{Committed};
ghost use Rattle.td_machine.specs.Vote.{votes_yes};
ghost use Rattle.td_vote.specs.Commits.{in_order};

/// The vote over commits in the order of their dots is the one over the commits in any order, as that of a log.
#[tactic(auto, using(crate::proofs::Commits::votes_in_order))]
pub fn the_vote_is_that_of_the_log()
    ensures { (rows : List DocRow) (holds : List Hold) (commits : List Committed) (slot : Slot) (v : List ℕ)
        → votes_yes rows holds (in_order commits) slot v ≡ votes_yes rows holds commits slot v }
{}
