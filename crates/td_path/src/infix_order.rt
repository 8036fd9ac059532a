ghost use Rattle.std.specs.Prelude.{◌≡◌};
ghost use Rattle.td_path.specs.Infix.{node_cmp, path_cmp};

use crate::path::Path;
use std::cmp::Ordering;
use td_base::{AtomId, Bit};

/// How two nodes stand in the infix walk of the tree (Preguiça et al. 2009). Takes no memory.
pub fn infix(a: &Path, b: &Path) -> Ordering
    ensures { result ≡ path_cmp a.now b.now }
{
    infix_pairs(a.as_slice(), b.as_slice())
}

fn infix_pairs(mut a: &[(Bit, AtomId)], mut b: &[(Bit, AtomId)]) -> Ordering
    ensures { result ≡ path_cmp a.entry.now b.entry.now }
{
    loop {
        match (a.split_first(), b.split_first()) {
            (Some((p, a_rest)), Some((q, b_rest))) => {
                let order = p.cmp(q);
                if order.is_ne() {
                    return order;
                }
                a = a_rest;
                b = b_rest;
            }
            (Some((p, _)), None) => return node_cmp(p.0).reverse(),
            (None, Some((q, _))) => return node_cmp(q.0),
            (None, None) => return Ordering::Equal,
        }
    }
}

// A node against one that lies below it on this side.
fn node_cmp(bit: Bit) -> Ordering
    ensures { result ≡ node_cmp bit }
{
    match bit {
        Bit::Left => Ordering::Greater,
        Bit::Right => Ordering::Less,
    }
}
