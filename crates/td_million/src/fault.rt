use td_base::Memory;
use td_doc::DocFault;
use thiserror::Error;

/// Why the document was not written as it was to be.
#[derive(Clone, Copy, Debug, PartialEq, Eq, Error)]
pub(crate) enum Fault {
    #[error("out of memory")]
    Memory,
    #[error("the text has no place {index}")]
    NoPlace { index: u32 },
    #[error("an atom is gone")]
    Gone,
    #[error("a site has no dot left")]
    NoDot,
    #[error("there is no such site, atom or run")]
    NoValue,
    #[error("another atom stands at the index {index}")]
    OtherAtom { index: u32 },
}

impl From<Memory> for Fault {
    fn from(_memory: Memory) -> Fault {
        Fault::Memory
    }
}

impl From<DocFault> for Fault {
    fn from(fault: DocFault) -> Fault {
        match fault {
            DocFault::Gone { .. } => Fault::Gone,
            DocFault::Memory => Fault::Memory,
        }
    }
}
