// Bytes with a piece more, and with one less; and what small numbers come to.
ghost use Rattle.std.specs.Prelude.{◌≡◌, ◌<◌, ◌≤◌, ◌^◌, ◌++◌, length, take, drop, sum, IfOk};
ghost use Rattle.std.specs.List.{insert_slice};

use std::alloc::{AllocError, Global};

/// The bytes with a piece put at a place, in memory that just fits them.
pub fn with_piece(
    alloc: Global,
    bytes: &[u8],
    place: usize,
    piece: &[u8],
) -> Result<Vec<u8>, AllocError>
    requires place { place ≤ length bytes.now }
    requires few { length piece.now ≤ 64 }
    ensures { IfOk result (λ all. all.items ≡ insert_slice bytes.now place piece.now) }
{
    let mut all = Vec::with_capacity(alloc, bytes.len() + piece.len())?;
    all.extend_from_slice(&bytes[..place])?;
    all.extend_from_slice(piece)?;
    all.extend_from_slice(&bytes[place..])?;
    Ok(all)
}

/// Takes the bytes from a place up to another out.
pub fn take_out(bytes: &mut Vec<u8>, from: usize, to: usize)
    requires from { from ≤ to }
    requires to { to ≤ length bytes.old.items }
    ensures { bytes.new.items ≡ take from bytes.old.items ++ drop to bytes.old.items }
{
    let end = bytes.len();
    bytes.copy_within(to..end, from);
    bytes.truncate(end - (to - from));
}

/// What these numbers come to.
pub fn total(numbers: &[u8]) -> usize
    requires { sum numbers.now < 2 ^ 63 }
    ensures { result ≡ sum numbers.now }
{
    numbers.iter().map(|n| usize::from(*n)).sum()
}
