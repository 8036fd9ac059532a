ghost use Rattle.std.specs.Prelude.{◌≡◌};

use crate::packet_bytes::PacketBytes;
use std::marker::Model;

/// A message as it goes over a wire: the bytes of its spelling in format 2. Contracts see the list of them.
#[derive(Clone, Copy, Debug, PartialEq, Eq)]
pub struct Packet {
    pub(crate) bytes: PacketBytes,
}

impl Model for Packet {
    ghost use Rattle.std.specs.Prelude.{ℕ, List};

    ghost Value = { List ℕ };

    ghost use Rattle.td_wire.specs.Spelling.{IsPacket};

    ghost view = { λ p. p.bytes };

    ghost invariant = { λ p. IsPacket p.bytes };

    ghost inverse = { λ bytes. record { bytes = bytes } };
}

impl Packet {
    ghost use Rattle.td_wire.specs.Spelling.{IsPacket};

    /// The bytes to send, up to `MAX_PACKET_LEN`.
    pub fn bytes(&self) -> &[u8]
        ensures bytes { result.now ≡ self.now }
        ensures spelling { IsPacket self.now }
    {
        self.bytes.as_slice()
    }
}
