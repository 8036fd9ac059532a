ghost use Rattle.std.specs.Prelude.{◌≡◌, ℕ, true, false, IfOk, IfSome, IsNone};
ghost use Rattle.std.specs.Option.{option_map};
ghost use Rattle.td_path.specs.declared.slot.Slot.{Slot as SlotValue};
ghost use Rattle.td_path.specs.declared.slot.Slot.TheVariants.{Root};
ghost use Rattle.td_idle.specs.Candidate.{is_candidate};
ghost use Rattle.td_idle.specs.Best.{is_over, is_over_best, kept, best_slot, IsBest};
ghost use Rattle.td_idle.specs.Certificate.{is_certified};
ghost use Rattle.td_idle.specs.Kept.{IsBestOf};

use crate::candidate::is_candidate;
use crate::stability::stable;
use crate::top::tops;
use crate::unknown::{row_ids, unknown_rows};
use std::alloc::Global;
use td_base::{AtomId, Memory};
use td_doc::Doc;
use td_path::Slot;
use td_replica::Replica;

/// A candidate, with the number of its rows and the reason why no other is better: the largest candidates, and rows of
/// which something is not stable.
#[derive(Debug, Drop)]
pub struct Idle {
    pub slot: Slot,
    pub rows: u32,
    pub tops: Vec<Slot>,
    pub unknown: Vec<AtomId>,
}

/// The candidate with most rows, the first of those in the order of slots; None exactly where there is none.
pub fn best<D: Doc>(alloc: Global, replica: &Replica<D>) -> Result<Option<Idle>, Memory>
    ensures slot { IfOk result (λ found. option_map (λ i. i.slot) found ≡ best_slot replica.now.machine) }
    ensures best { IfOk result (λ found. IfSome found (λ i. IsBest replica.now.machine i.slot i.rows)) }
    ensures certified { IfOk result (λ found. IfSome found (λ i. is_certified replica.now.machine i ≡ true)) }
    ensures none { IfOk result (λ found. IsNone found → (t : SlotValue) → is_candidate replica.now.machine t ≡ false) }
{
    replica.entries();
    let v = stable(replica);
    if is_candidate(replica, &v, &Slot::Root) {
        return Ok(Some(whole(alloc, replica)?));
    }
    let mut ids = row_ids(alloc, replica.doc())?;
    let mut unknown = unknown_rows(alloc, replica.doc(), &ids, &v)?;
    let tops = tops(alloc, replica, &mut ids, &mut unknown)?;
    match best_of(replica.doc(), &tops) {
        Some(best) => Ok(Some(Idle {
            slot: best.slot,
            rows: best.rows,
            tops,
            unknown,
        })),
        None => Ok(None),
    }
}

// The root slot, where it is a candidate.
fn whole<D: Doc>(alloc: Global, replica: &Replica<D>) -> Result<Idle, Memory>
    requires { is_candidate replica.now.machine Root ≡ true }
    ensures best { IfOk result (λ i. IsBest replica.now.machine i.slot i.rows) }
    ensures certified { IfOk result (λ i. is_certified replica.now.machine i ≡ true) }
{
    replica.entries();
    let mut tops = Vec::new(alloc);
    tops.push(Slot::Root)?;
    Ok(Idle {
        slot: Slot::Root,
        rows: replica.doc().rows(),
        tops,
        unknown: Vec::new(alloc),
    })
}

/// A slot with the number of its rows.
#[derive(Clone, Copy, Debug)]
pub struct Counted {
    pub slot: Slot,
    pub rows: u32,
}

// The best of the slots.
fn best_of<D: Doc>(doc: &D, slots: &[Slot]) -> Option<Counted>
    ensures { IsBestOf (D.rows doc.now) slots.now result }
{
    let mut best = None;
    for slot in slots {
        keep_better(&mut best, doc, slot);
    }
    best
}

// Keeps the better of the best so far and the slot.
fn keep_better<D: Doc>(best: &mut Option<Counted>, doc: &D, slot: &Slot)
    ensures { best.new ≡ kept (D.rows doc.now) slot.now best.old }
{
    let rows = doc.count(*slot);
    if is_over_best(best, slot, rows) {
        *best = Some(Counted { slot: *slot, rows });
    }
}

// Whether a slot with so many rows is better than the best so far.
fn is_over_best(best: &Option<Counted>, slot: &Slot, rows: u32) -> bool
    ensures { result ≡ is_over_best slot.now rows best.now }
{
    match best {
        None => true,
        Some(other) => is_over(slot, rows, &other.slot, other.rows),
    }
}

/// Whether a slot with so many rows has more than another, or as many, and stands before it.
pub fn is_over(slot: &Slot, rows: u32, other: &Slot, others: u32) -> bool
    ensures { result ≡ is_over slot.now rows other.now others }
{
    others < rows || others == rows && slot < other
}
