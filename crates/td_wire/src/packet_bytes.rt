ghost use Rattle.std.specs.Prelude.{◌≡◌, ◌≤◌, ◌<◌, ◌+◌, ◌++◌, ◌∷◌, [], length};

use crate::length::MAX_PACKET_LEN;
use std::marker::Model;

/// The bytes of a packet: up to `MAX_PACKET_LEN`. Contracts see the list of them.
#[derive(Clone, Copy, Debug, PartialEq, Eq)]
pub(crate) struct PacketBytes {
    len: usize,
    // past `len` the bytes are 0
    bytes: [u8; MAX_PACKET_LEN],
}

impl Model for PacketBytes {
    ghost use Rattle.std.specs.Prelude.{ℕ, List, length, take};

    ghost Value = { List ℕ };

    ghost use Rattle.td_base.specs.Padded.{IsPadded, padded_with_zeros, len_again};
    ghost use Rattle.td_wire.specs.declared.length.TheConstants.{MAX_PACKET_LEN};
    ghost use Rattle.std.proofs.Common.{sym};

    ghost view = { λ b. take b.len b.bytes };

    ghost invariant = { λ b. IsPadded MAX_PACKET_LEN b.len b.bytes };

    ghost inverse = { λ bytes. record { len = length bytes; bytes = padded_with_zeros MAX_PACKET_LEN bytes } };

    ghost inverse_ok = { λ b h i. record {
      len = len_again MAX_PACKET_LEN b.len b.bytes h i;
      bytes = sym h.zeros i;
    } };
}

impl PacketBytes {
    pub(crate) fn new() -> PacketBytes
        ensures { result ≡ [] }
    {
        PacketBytes {
            len: 0,
            bytes: [0; MAX_PACKET_LEN],
        }
    }

    // Adds a byte at the end.
    pub(crate) fn push(&mut self, byte: u8)
        requires { length self.old < MAX_PACKET_LEN }
        ensures { self.new ≡ self.old ++ byte ∷ [] }
    {
        self.bytes[self.len] = byte;
        self.len += 1;
    }

    // Adds the bytes at the end.
    pub(crate) fn extend(&mut self, piece: &[u8])
        requires { length self.old + length piece.now ≤ MAX_PACKET_LEN }
        ensures { self.new ≡ self.old ++ piece.now }
    {
        let end = self.len + piece.len();
        self.bytes[self.len..end].copy_from_slice(piece);
        self.len = end;
    }

    pub(crate) fn as_slice(&self) -> &[u8]
        ensures { result.now ≡ self.now }
    {
        &self.bytes[..self.len]
    }
}
