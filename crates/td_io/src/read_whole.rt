ghost use Rattle.std.specs.Prelude.{◌≡◌, ◌≤◌, ◌+◌, ℕ, length, IfOk, OnOk, OnErr, IfSome, IsErrOf};
ghost use Rattle.td_io.specs.Count.{Rose};
ghost use Rattle.td_io.specs.Reading.{IsReadPast, IsReadToEnd};
ghost use Rattle.td_io.specs.Whole.{ConsumesFirst};

use crate::fault::ReadFault;
use crate::source::Source;
use std::alloc::Global;
use td_base::Bytes;

/// How many bytes are taken in one call at most.
const PIECE: usize = 4096;

/// Takes all bytes of the source, where they are at most `most`, and else one byte more than that. After a fault the
/// bytes that it took are lost.
pub fn read_all<S: Source>(alloc: Global, source: &mut S, most: u32) -> Result<Bytes, ReadFault>
    ensures within { IfOk result (λ bytes. length bytes ≤ most) }
    ensures all { IfOk result (λ bytes. IfSome (S.left source.old) (λ left. bytes ≡ left)) }
    ensures ended { OnOk result (IsReadToEnd S.Source source.old source.new) }
    ensures too_long { IsErrOf result ReadFault.TooLong → IsReadPast S.Source most source.old source.new }
    ensures failed { IsErrOf result ReadFault.Failed → Rose (S.faults source.old) (S.faults source.new) }
    ensures lost { OnErr result ((n : ℕ) × (n ≤ most + 1)
        × ConsumesFirst (S.left source.old) (S.left source.new) n) }
    ensures count { S.faults source.old ≤ S.faults source.new }

    // At most so many calls are made: each but the last gives a byte, and none is made after one that found the end.
    ensures turns { S.calls source.new ≤ S.calls source.old + (most + 1) }
    ensures gives { IfOk result (λ bytes. S.calls source.new ≤ S.calls source.old + (length bytes + 1)) }
    ensures no_end { OnErr result (S.end source.new ≡ S.end source.old) }
{
    let most = most as usize;
    let mut bytes = Bytes::new(alloc);
    let mut buf = [0; PIECE];
    // each turn takes at least one byte
    while bytes.as_slice().len() <= most {
        let room = PIECE.min(most + 1 - bytes.as_slice().len());
        let piece = &mut buf[..room];
        let count = source.take(piece)?;
        if count == 0 {
            return Ok(bytes);
        }
        bytes.push(&piece[..count])?;
    }
    Err(ReadFault::TooLong)
}
