// The holds of a replica, as a walk over them.
ghost use Rattle.std.specs.Prelude.{◌≡◌, Bool, true, reverse};
ghost use Rattle.std.specs.Fn.{FnReturnsAt};
ghost use Rattle.std.specs.List.{list_any};
ghost use Rattle.td_path.specs.declared.slot.Slot.{Slot};
ghost use Rattle.td_doc.specs.Slots.{overlaps};
ghost use Rattle.td_machine.specs.Hold.{Hold, held_by, is_of, smaller_dot};

use crate::slots::overlap;
use std::marker::Model;
use td_base::Dot;
use td_doc::Doc;
use td_path::Slot;

/// A proposal that was voted Yes, with its slot. Contracts see the hold.
#[derive(Debug, Drop)]
pub struct Held {
    pub proposal: Dot,
    pub slot: Slot,
}

impl Model for Held {
    ghost use Rattle.td_machine.specs.Hold.{Hold};

    ghost Value = { Hold };

    ghost view = { λ h. record { proposal = h.proposal; slot = h.slot } };
}

/// The least proposal of those whose slot passes the test.
pub fn least_held<F: Fn(&Slot) -> bool>(holds: &[Held], test: F) -> Option<Dot>
    requires { F.IsAlwaysCallable test }
    ensures { (passes : Slot → Bool) → ((s : Slot) (b : Bool) → FnReturnsAt F.Fn test s b → b ≡ passes s)
        → result ≡ held_by passes (reverse holds.now) }
{
    let mut least = None;
    for held in holds {
        if test(&held.slot) {
            least = Some(smaller(held.proposal, least));
        }
    }
    least
}

/// The least proposal.
pub fn least(holds: &[Held]) -> Option<Dot>
    ensures { result ≡ held_by (λ (s : Slot). true) (reverse holds.now) }
{
    least_held(holds, |_slot| true)
}

// The smaller of the dot and the least so far.
fn smaller(dot: Dot, least: Option<Dot>) -> Dot
    ensures { result ≡ smaller_dot dot least }
{
    match least {
        Some(other) if other < dot => other,
        _ => dot,
    }
}

/// Whether a held slot overlaps the slot.
pub fn any_overlaps<D: Doc>(holds: &[Held], doc: &D, slot: &Slot) -> bool
    ensures { result ≡ list_any (λ (h : Hold). overlaps (D.rows doc.now) h.slot slot.now) holds.now }
{
    holds.iter().any(|held| overlap(doc, &held.slot, slot))
}

/// Whether the proposal is held.
pub fn has_proposal(holds: &[Held], proposal: Dot) -> bool
    ensures { result ≡ list_any (is_of proposal) holds.now }
{
    holds.iter().any(|held| held.proposal == proposal)
}
