ghost use Rattle.std.specs.Prelude.{◌≡◌, ◌||◌, ◌==◌, IfSome};
ghost use Rattle.std.specs.List.{list_all, list_any};
ghost use Rattle.td_doc.specs.Document.{IsDocument, find_row};
ghost use Rattle.td_doc.specs.Slots.{is_within};
ghost use Rattle.td_idle.specs.Stable.{stable};
ghost use Rattle.td_idle.specs.Candidate.{is_held_over};
ghost use Rattle.td_idle.specs.Best.{row_count};
ghost use Rattle.td_idle.specs.Certificate.{is_unknown_in, is_covered, is_top, is_certified};

use crate::candidate::{is_candidate, is_held_over};
use crate::idle::{Idle, is_over};
use crate::stability::stable;
use crate::unknown::is_row_known;
use td_base::AtomId;
use td_clock::Vector;
use td_doc::Doc;
use td_path::Slot;
use td_replica::Replica;

/// Whether the slot is a candidate with so many rows, and the rest of it the reason why no candidate is better. It
/// takes no memory, and about as many calls of the document as rows times tops and unknown rows.
pub fn check<D: Doc>(replica: &Replica<D>, idle: &Idle) -> bool
    ensures { result ≡ is_certified replica.now.machine idle.now }
{
    replica.entries();
    let v = stable(replica);
    if !is_candidate(replica, &v, &idle.slot) {
        return false;
    }
    if !has_rows(replica.doc(), &idle.slot, idle.rows) {
        return false;
    }
    if !are_tops(replica, &v, &idle.slot, &idle.tops) {
        return false;
    }
    are_covered(replica, &v, idle)
}

// Whether the slot has so many rows.
fn has_rows<D: Doc>(doc: &D, slot: &Slot, rows: u32) -> bool
    ensures { result ≡ (row_count (D.rows doc.now) slot.now == rows) }
{
    doc.count(*slot) == rows
}

// Whether the slots are candidates, and none of them better than the one.
fn are_tops<D: Doc>(replica: &Replica<D>, v: &Vector, slot: &Slot, tops: &[Slot]) -> bool
    requires { v.now ≡ stable replica.now.machine }
    ensures { result ≡ list_all (is_top replica.now.machine slot.now) tops.now }
{
    for top in tops {
        if !is_top(replica, v, slot, top) {
            return false;
        }
    }
    true
}

fn is_top<D: Doc>(replica: &Replica<D>, v: &Vector, slot: &Slot, top: &Slot) -> bool
    requires { v.now ≡ stable replica.now.machine }
    ensures { result ≡ is_top replica.now.machine slot.now top.now }
{
    is_candidate(replica, v, top)
        && !is_over(
            top,
            replica.doc().count(*top),
            slot,
            replica.doc().count(*slot),
        )
}

// Whether each row is in a top, or in no candidate.
fn are_covered<D: Doc>(replica: &Replica<D>, v: &Vector, idle: &Idle) -> bool
    requires stable { v.now ≡ stable replica.now.machine }
    requires document { IsDocument replica.now.machine.doc }
    ensures { result ≡ list_all (is_covered replica.now.machine idle.now.tops.items idle.now.unknown.items)
        replica.now.machine.doc }
{
    let mut all = true;
    let mut last = None;
    for _ in 0..replica.doc().rows() {
        let Some(id) = replica.doc().after(last) else {
            break
        };
        all &= is_covered(replica, v, idle, id);
        last = Some(id);
    }
    all
}

fn is_covered<D: Doc>(replica: &Replica<D>, v: &Vector, idle: &Idle, id: AtomId) -> bool
    requires { v.now ≡ stable replica.now.machine }
    ensures { IfSome (find_row id replica.now.machine.doc) (λ r.
        result ≡ is_covered replica.now.machine idle.now.tops.items idle.now.unknown.items r) }
{
    match replica.doc().find(id) {
        Some(row) => is_covered_in(replica, v, idle, id, &row.slot),
        None => false,
    }
}

// The same of a row whose own slot is told.
fn is_covered_in<D: Doc>(
    replica: &Replica<D>,
    v: &Vector,
    idle: &Idle,
    id: AtomId,
    own: &Slot,
) -> bool
    requires { v.now ≡ stable replica.now.machine }
    ensures { result ≡ (list_any (is_within replica.now.machine.doc id) idle.now.tops.items
        || list_any (is_unknown_in replica.now.machine own.now) idle.now.unknown.items
        || is_held_over replica.now.machine own.now) }
{
    is_in_one(replica.doc(), id, &idle.tops)
        || has_unknown(replica, v, &idle.unknown, own)
        || is_held_over(replica, own)
}

fn is_in_one<D: Doc>(doc: &D, id: AtomId, slots: &[Slot]) -> bool
    ensures { result ≡ list_any (is_within (D.rows doc.now) id) slots.now }
{
    slots.iter().any(|slot| doc.within(id, *slot))
}

fn has_unknown<D: Doc>(replica: &Replica<D>, v: &Vector, ids: &[AtomId], slot: &Slot) -> bool
    requires { v.now ≡ stable replica.now.machine }
    ensures { result ≡ list_any (is_unknown_in replica.now.machine slot.now) ids.now }
{
    ids.iter().any(|id| is_unknown_in(replica, v, *id, slot))
}

fn is_unknown_in<D: Doc>(replica: &Replica<D>, v: &Vector, id: AtomId, slot: &Slot) -> bool
    requires { v.now ≡ stable replica.now.machine }
    ensures { result ≡ is_unknown_in replica.now.machine slot.now id }
{
    replica.doc().within(id, *slot) && !is_row_known(replica.doc(), id, v)
}
