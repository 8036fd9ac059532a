// The bytes of a stretch of the atoms of parts.
ghost use Rattle.std.specs.Prelude.{◌≡◌, ◌<◌, ◌-◌, ◌^◌, ◌++◌, length, flat_map, slice_range, OnErr, OnOk};
ghost use Rattle.std.specs.List.{concat};

use crate::part::Part;
use td_base::{Bytes, Memory};

/// Adds the bytes of the atoms from an index up to another at the end, as far as there are any. What was added when
/// memory ran out is taken off again.
pub fn push_parts<P: Part>(parts: &[P], from: u32, to: u32, text: &mut Bytes) -> Result<(), Memory>
    requires { length (flat_map P.atoms parts.now) < 2 ^ 32 }
    ensures ok { OnOk result (text.new ≡ text.old ++ concat (slice_range (flat_map P.atoms parts.now) from to)) }
    ensures err { OnErr result (text.new ≡ text.old) }
{
    let before = text.as_slice().len();
    let mut start = 0;
    for part in parts {
        if push_part(part, start, from, to, text).is_err() {
            text.truncate(before);
            return Err(Memory);
        }
        start += part.len();
    }
    Ok(())
}

// The same of one part, before which so many atoms stand.
fn push_part<P: Part>(
    part: &P,
    start: u32,
    from: u32,
    to: u32,
    text: &mut Bytes,
) -> Result<(), Memory>
    ensures ok { OnOk result (text.new
        ≡ text.old ++ concat (slice_range (P.atoms part.now) (from - start) (to - start))) }
    ensures err { OnErr result (text.new ≡ text.old) }
{
    let first = from.saturating_sub(start);
    let last = to.saturating_sub(start);
    if first >= last {
        return Ok(());
    }
    part.push_range(first, last, text)
}
