ghost use Rattle.std.specs.Prelude.{◌≡◌};
ghost use Rattle.td_idle.specs.Stable.{stable};
ghost use Rattle.td_idle.specs.Candidate.{is_held_over, is_candidate};

use td_clock::Vector;
use td_doc::Doc;
use td_path::Slot;
use td_replica::Replica;

/// Whether the slot is a candidate; v is what is stable.
pub fn is_candidate<D: Doc>(replica: &Replica<D>, v: &Vector, slot: &Slot) -> bool
    requires { v.now ≡ stable replica.now.machine }
    ensures { result ≡ is_candidate replica.now.machine slot.now }
{
    !replica.doc().slot_empty(*slot)
        && replica.doc().known(*slot, v)
        && !is_held_over(replica, slot)
}

/// Whether a held slot overlaps the slot.
#[tactic(auto, using(crate::proofs::Held::some_held))]
pub fn is_held_over<D: Doc>(replica: &Replica<D>, slot: &Slot) -> bool
    ensures { result ≡ is_held_over replica.now.machine slot.now }
{
    replica.held_over(*slot).is_some()
}
