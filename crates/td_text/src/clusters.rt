ghost use Rattle.std.specs.Prelude.{◌≡◌, true, All, IfErr, IfOk};
ghost use Rattle.unicode_segmentation.specs.Grapheme.{graphemes};
ghost use Rattle.td_base.specs.Atom.{IsAtom};
ghost use Rattle.td_text.specs.Clusters.{IsCutFault};

use crate::atom_list::AtomList;
use std::alloc::Global;
use td_base::{MAX_ATOM_LEN, Memory};
use thiserror::Error;
use unicode_segmentation::UnicodeSegmentation;

/// Why a text was not cut into atoms.
#[derive(Clone, Copy, Debug, PartialEq, Eq, Error)]
pub enum CutFault {
    /// The first cluster with more than 64 bytes, counted from 0.
    #[error("cluster {index} has more than 64 bytes")]
    Long { index: u32 },
    #[error("out of memory")]
    Memory,
}

impl From<Memory> for CutFault {
    ghost use Rattle.std.specs.Prelude.{◌≡◌};
    ghost use Rattle.td_text.specs.declared.clusters.CutFault.TheVariants.{Memory as OutOfMemory};

    ghost from_gives = { λ _ fault. fault ≡ OutOfMemory };

    fn from(_memory: Memory) -> CutFault {
        CutFault::Memory
    }
}

/// Cuts the text into extended grapheme clusters (UAX #29), an atom for each.
pub fn cut(alloc: Global, text: &str) -> Result<AtomList, CutFault>
    ensures ok { IfOk result (λ atoms. atoms ≡ graphemes true text.now) }
    ensures atoms { IfOk result (All IsAtom) }
    ensures fault { IfErr result (IsCutFault (graphemes true text.now)) }
{
    // in ASCII only a CR before LF shares its cluster
    if text.is_ascii() && !text.as_bytes().contains(&b'\r') {
        return Ok(AtomList::of_letters(alloc, text.as_bytes())?);
    }
    let mut atoms = AtomList::new(alloc);
    for cluster in text.graphemes(true) {
        let bytes = cluster.as_bytes();
        if bytes.len() > MAX_ATOM_LEN {
            return Err(CutFault::Long { index: atoms.len() });
        }
        atoms.push_bytes(bytes)?;
    }
    Ok(atoms)
}
