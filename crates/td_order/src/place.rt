ghost use Rattle.std.specs.Prelude.{◌≡◌, ◌<◌, ◌≤◌, ◌++◌, List, IfOk, IfSome, length, take, drop};
ghost use Rattle.std.specs.List.{position};
ghost use Rattle.td_base.specs.Value.{AtomIdValue};
ghost use Rattle.td_order.specs.Under.{is_under_any};
ghost use Rattle.td_order.specs.Place.{place, put_after_last, put_before_first};

use crate::beside::beside;
use crate::siblings::{siblings, smaller};
use crate::under::is_under_any;
use std::alloc::Global;
use td_base::{AtomId, Memory};
use td_op::Insertion;

/// The list with the atoms of the new insertion, where `placed` are the insertions whose atoms it has, the last in
/// line-up first.
pub fn place(
    alloc: Global,
    placed: &[Insertion],
    list: &[AtomId],
    new: &Insertion,
) -> Result<Vec<AtomId>, Memory>
    ensures { IfOk result (λ all. all.items ≡ place placed.now list.now new.now) }
{
    let siblings = siblings(alloc, placed, new)?;
    let smaller = smaller(alloc, new, &siblings)?;
    let at = if !smaller.is_empty() {
        after_last_under(placed, &smaller, list)
    } else if !siblings.is_empty() {
        before_first_under(placed, &siblings, list)
    } else {
        beside(new.slot, list)
    };
    let ids = new.ids(alloc)?;
    spliced(alloc, list, at, &ids)
}

// The list with more atoms at a place.
fn spliced(alloc: Global, list: &[AtomId], at: usize, ids: &[AtomId]) -> Result<Vec<AtomId>, Memory>
    requires { at ≤ length list.now }
    ensures { IfOk result (λ all. all.items ≡ take at list.now ++ (ids.now ++ drop at list.now)) }
{
    let mut all = list[..at].to_vec(alloc)?;
    all.extend_from_slice(ids)?;
    all.extend_from_slice(&list[at..])?;
    Ok(all)
}

// The place after the last atom of an insertion that is under one of these, or the start.
fn after_last_under(placed: &[Insertion], tops: &[Insertion], list: &[AtomId]) -> usize
    ensures bound { result ≤ length list.now }
    ensures place { (ids : List AtomIdValue) → put_after_last (is_under_any placed.now tops.now) ids list.now
        ≡ take result list.now ++ (ids ++ drop result list.now) }
{
    let mut at = 0;
    for (i, id) in list.iter().enumerate() {
        if is_under_any(placed, tops, *id) {
            at = i + 1;
        }
    }
    at
}

// The place before the first atom of an insertion that is under one of these, or the end.
fn before_first_under(placed: &[Insertion], tops: &[Insertion], list: &[AtomId]) -> usize
    ensures bound { result ≤ length list.now }
    ensures place { (ids : List AtomIdValue) → put_before_first (is_under_any placed.now tops.now) ids list.now
        ≡ take result list.now ++ (ids ++ drop result list.now) }
{
    first_under(placed, tops, list).unwrap_or(list.len())
}

fn first_under(placed: &[Insertion], tops: &[Insertion], list: &[AtomId]) -> Option<usize>
    ensures value { result ≡ position (is_under_any placed.now tops.now) list.now }
    ensures bound { IfSome result (λ at. at < length list.now) }
{
    list.iter().position(|id| is_under_any(placed, tops, *id))
}
