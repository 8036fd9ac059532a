// What the definitions come to, each law as the contract of a function with an empty body.
ghost use Rattle.std.specs.Prelude.{◌≡◌, ◌≢◌, ◌<◌, List, true, false, IsTrue};
ghost use Rattle.td_clock.specs.Vector.{vector_has, vector_covers};
ghost use Rattle.td_path.specs.declared.slot.Slot.{Slot};
ghost use Rattle.td_doc.specs.Document.{DocRow, IsDocument};
ghost use Rattle.td_doc.specs.Slots.{contains_slot, is_empty_slot, is_known};
ghost use Rattle.td_op.specs.Op.{OpValue};
ghost use Rattle.td_machine.specs.Log.{commits};
ghost use Rattle.td_machine.specs.Machine.{Machine};
ghost use Rattle.td_machine.specs.Vote.{votes_yes};
ghost use Rattle.td_machine.specs.History.{Family, Moment, IsReached, IsConsistent, IsOpOf, machine_at};
ghost use Rattle.td_idle.specs.declared.idle.Idle.{Idle};
ghost use Rattle.td_idle.specs.Stable.{stable};
ghost use Rattle.td_idle.specs.Candidate.{is_candidate};
ghost use Rattle.td_idle.specs.Best.{row_count, IsBest};
ghost use Rattle.td_idle.specs.Certificate.{is_certified};
ghost use Rattle.td_idle.specs.Against.{IsAgainst};

/// A true check is the maximum: what is certified is a candidate, no candidate has more rows, and none with as many
/// stands before it.
#[tactic(auto, using(crate::proofs::Maximum::reached_is_best))]
pub fn a_certified_slot_is_the_best()
    ensures { (m : Machine) → IsReached m → (idle : Idle) → is_certified m idle ≡ true → IsBest m idle.slot idle.rows }
{}

/// A slot with a row, within another slot, has fewer rows. So no two slots have the same rows.
#[tactic(auto, using(crate::proofs::Inside::fewer))]
pub fn slots_within_have_fewer_rows()
    ensures { (rows : List DocRow) → IsDocument rows → (s t : Slot) → contains_slot rows s t ≡ true
        → is_empty_slot rows t ≡ false → s ≢ t → row_count rows t < row_count rows s }
{}

/// Causal stability: each operation of a consistent family that a site does not have at a moment was made by a site
/// that had all that is stable there; and all that was done in a candidate.
#[tactic(auto, using(crate::proofs::StillToCome::still_to_come, crate::proofs::StillToCome::knows_candidates))]
pub fn what_is_still_to_come_knows_all_that_is_stable()
    ensures stable { (family : Family) → IsConsistent family → (t : Moment family) → (e : OpValue) → IsOpOf family e
        → vector_has (machine_at family t).have e.dot ≡ false
        → IsTrue (vector_covers e.deps (stable (machine_at family t))) }
    ensures candidate { (family : Family) → IsConsistent family → (t : Moment family) → (slot : Slot)
        → is_candidate (machine_at family t) slot ≡ true → (e : OpValue) → IsOpOf family e
        → vector_has (machine_at family t).have e.dot ≡ false
        → is_known (machine_at family t).doc slot e.deps ≡ true }
{}

/// What a candidate is worth: a vote on it is No for an edit that the proposer did not have, whose site knew all that
/// was done in the slot, or for a hold; or for a commit that the proposer had not seen, which may also be why the
/// slot's atom is gone.
#[tactic(auto, using(crate::proofs::VotedNo::against))]
pub fn why_a_candidate_is_voted_no()
    ensures { (family : Family) → IsConsistent family → (t u : Moment family) (slot : Slot)
        → is_candidate (machine_at family t) slot ≡ true
        → votes_yes (machine_at family u).doc (machine_at family u).holds (commits (machine_at family u).log) slot
        (machine_at family t).have ≡ false → IsAgainst family t u slot }
{}
