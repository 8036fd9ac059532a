// The dots of the deletes that named a row, in their order.
ghost use Rattle.std.specs.Prelude.{◌≡◌, ◌<◌, ◌≤◌, ◌^◌, length, insert, slice_get, ◌↔◌, IsTrue, Some, IfSome, OnErr, OnOk};
ghost use Rattle.std.specs.List.{list_all, position, position_or_len};
ghost use Rattle.std.specs.Ordering.{is_le};
ghost use Rattle.td_base.specs.Value.{DotValue};
ghost use Rattle.td_base.specs.Order.{dot_cmp};
ghost use Rattle.td_clock.specs.Vector.{vector_has};
ghost use Rattle.td_doc.specs.Deletion.{add_dot};

use td_base::{Dot, Memory};
use td_clock::Vector;

/// Adds the dot, unless it is there.
#[tactic(auto, using(crate::proofs::Deletes::there, crate::proofs::Deletes::put))]
pub fn add_dot(dots: &mut Vec<Dot>, dot: Dot) -> Result<(), Memory>
    requires { length dots.old.items < 2 ^ 32 }
    ensures ok { OnOk result (dots.new.items ≡ add_dot dot dots.old.items) }
    ensures few { length dots.new.items < 2 ^ 32 }
    ensures err { OnErr result (dots.new.items ≡ dots.old.items) }
{
    let place = place_of(dots, dot);
    if is_at(dots, place, dot) {
        return Ok(());
    }
    insert_dot(dots, place, dot)
}

// Whether the dot stands at the place.
fn is_at(dots: &[Dot], place: usize, dot: Dot) -> bool
    ensures { IsTrue result ↔ (slice_get dots.now place ≡ Some dot) }
{
    match dots.get(place) {
        Some(other) => *other == dot,
        None => false,
    }
}

// Puts the dot at the place.
fn insert_dot(dots: &mut Vec<Dot>, place: usize, dot: Dot) -> Result<(), Memory>
    requires few { length dots.old.items < 2 ^ 32 }
    requires place { place ≤ length dots.old.items }
    ensures ok { OnOk result (dots.new.items ≡ insert dots.old.items place dot) }
    ensures few { length dots.new.items < 2 ^ 32 }
    ensures err { OnErr result (dots.new.items ≡ dots.old.items) }
{
    if dots.len() >= u32::MAX as usize {
        return Err(Memory);
    }
    dots.insert(place, dot)?;
    Ok(())
}

// How many of the dots stand before this one.
#[tactic(auto, using(td_base::proofs::Searches::first_or_length))]
fn place_of(dots: &[Dot], dot: Dot) -> usize
    ensures value { result ≡ position_or_len (λ (d : DotValue). is_le (dot_cmp dot d)) dots.now }
    ensures bound { result ≤ length dots.now }
{
    first_from(dots, dot).unwrap_or(dots.len())
}

// The place of the first dot that is this one or stands after it.
fn first_from(dots: &[Dot], dot: Dot) -> Option<usize>
    ensures value { result ≡ position (λ (d : DotValue). is_le (dot_cmp dot d)) dots.now }
    ensures bound { IfSome result (λ place. place < length dots.now) }
{
    dots.iter().position(|other| dot.cmp(other).is_le())
}

/// Whether the vector has all of the dots.
pub fn has_all(v: &Vector, dots: &[Dot]) -> bool
    ensures { result ≡ list_all (vector_has v.now) dots.now }
{
    dots.iter().all(|dot| v.has(*dot))
}
