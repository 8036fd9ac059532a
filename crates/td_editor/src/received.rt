use td_op::Reply;
use td_wire::Malformed;

/// What becomes of a packet.
#[derive(Clone, Copy, Debug, PartialEq, Eq)]
pub enum Received {
    /// The bytes are no packet.
    Malformed(Malformed),
    /// The packet is none that another site sends to this one. Nothing is done.
    Stray,
    /// The replica took it with this reply, and then so many operations that waited.
    Took { reply: Reply, next: u32 },
}
