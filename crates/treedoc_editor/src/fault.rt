use td_base::Memory;
use thiserror::Error;

/// Why a desk did not do what it was to do.
#[derive(Clone, Copy, Debug, PartialEq, Eq, Error)]
pub(crate) enum Fault {
    #[error("out of memory")]
    Memory,
    #[error("a flatten is being decided there")]
    Held,
    #[error("the text has no such place")]
    NoPlace,
    #[error("the site has made all operations that it can make")]
    Limit,
    #[error("this is no text")]
    NoText,
    #[error("there is no such site")]
    NoSite,
    #[error("these bytes are no packet for this site")]
    NoPacket,
}

impl From<Memory> for Fault {
    fn from(_memory: Memory) -> Fault {
        Fault::Memory
    }
}
