ghost use Rattle.std.specs.Prelude.{◌≡◌, ◌<◌, Some, IfOk, slice_get};
ghost use Rattle.td_path.specs.Shape.{shape, shape_index};

use std::alloc::Global;
use std::cmp::Ordering;
use td_base::{Bit, Memory};

/// The bits from the top node of an array of `k` atoms down to its atom `i`, counted from 0, where the array is halved
/// at each node as `explode` does it (Preguiça et al. 2009). They are at most as many as the binary digits of `k` less
/// one.
pub fn shape_path(alloc: Global, k: u32, i: u32) -> Result<Vec<Bit>, Memory>
    requires { i < k }
    ensures { IfOk result (λ bits. slice_get (shape k) i ≡ Some bits.items) }
{
    let mut bits = Vec::new(alloc);
    // the part in which the atom is: how many atoms it has, and the place of the atom in it
    let mut count = k;
    let mut place = i;
    loop {
        let middle = count / 2;
        match place.cmp(&middle) {
            Ordering::Equal => return Ok(bits),
            Ordering::Less => {
                bits.push(Bit::Left)?;
                count = middle;
            }
            Ordering::Greater => {
                bits.push(Bit::Right)?;
                count -= middle + 1;
                place -= middle + 1;
            }
        }
    }
}

/// The atom, counted from 0, to which these bits lead from the top node of an array of `k` atoms. None where no atom
/// of the array has them. Takes no memory.
pub fn shape_index(k: u32, bits: &[Bit]) -> Option<u32>
    ensures { result ≡ shape_index k bits.now }
{
    // the part to which the bits so far lead: how many atoms stand before it, and how many it has
    let mut before = 0;
    let mut count = k;
    for bit in bits {
        if count == 0 {
            return None;
        }
        let left = count / 2;
        match bit {
            Bit::Left => count = left,
            Bit::Right => {
                before += left + 1;
                count -= left + 1;
            }
        }
    }
    if count > 0 {
        Some(before + count / 2)
    } else {
        None
    }
}
