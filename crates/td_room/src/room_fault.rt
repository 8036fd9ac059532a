use thiserror::Error;

/// Why there is no room.
#[derive(Clone, Copy, Debug, PartialEq, Eq, Error)]
pub enum RoomFault {
    /// `left_right` refused a reader, and does not say why. The opener has counted it.
    #[error("a reader was refused")]
    Refused,
    /// Want of memory.
    #[error("out of memory")]
    Memory,
}
