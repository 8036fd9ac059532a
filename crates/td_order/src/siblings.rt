ghost use Rattle.std.specs.Prelude.{◌≡◌, IfOk, filter};
ghost use Rattle.td_order.specs.Place.{is_sibling, is_smaller, siblings};

use std::alloc::Global;
use td_base::Memory;
use td_op::Insertion;

/// Of the placed insertions those that wrote the slot of the new one and are not in its past.
pub fn siblings(
    alloc: Global,
    placed: &[Insertion],
    new: &Insertion,
) -> Result<Vec<Insertion>, Memory>
    ensures { IfOk result (λ found. found.items ≡ siblings placed.now new.now) }
{
    let mut found = Vec::new(alloc);
    for other in placed {
        if is_sibling(new, other) {
            found.push(*other)?;
        }
    }
    Ok(found)
}

fn is_sibling(new: &Insertion, other: &Insertion) -> bool
    ensures { result ≡ is_sibling new.now other.now }
{
    other.slot == new.slot && !new.deps.has(other.dot)
}

/// Of these insertions those that have a smaller dot than the new one.
pub fn smaller(
    alloc: Global,
    new: &Insertion,
    others: &[Insertion],
) -> Result<Vec<Insertion>, Memory>
    ensures { IfOk result (λ found. found.items ≡ filter (is_smaller new.now) others.now) }
{
    let mut found = Vec::new(alloc);
    for other in others {
        if other.dot < new.dot {
            found.push(*other)?;
        }
    }
    Ok(found)
}
