use crate::command::Place;
use td_base::{Atom, Dot, Site};
use td_text::AtomList;

/// A command of a kept script. An index counts live atoms from 0, a message counts from 1.
#[derive(Debug, Drop)]
pub enum KeptCommand {
    /// `sites N`: the number of sites, first and once.
    Sites {
        n: u8,
    },
    /// `ins R I "text"`: inserts each cluster of the text, one behind the other.
    Ins {
        site: Site,
        index: u32,
        atoms: AtomList,
    },
    /// `del R I K`: deletes at the index, so many times.
    Del {
        site: Site,
        index: u32,
        count: u32,
    },
    /// `flat R root`, `flat R I left` and `flat R I right`: proposes a flatten.
    Flat {
        site: Site,
        place: Place,
    },
    /// `cancel R S.Q`: aborts the proposal.
    Cancel {
        site: Site,
        proposal: Dot,
    },
    /// `give R M`: gives the message of this number.
    Give {
        site: Site,
        number: u64,
    },
    /// `show R`: prints the text.
    Show {
        site: Site,
    },
    /// `crash R K C I "x"`: inserts the cluster while the disk call with the number K, from 1 to `DISK_CALLS`, fails;
    /// then the site crashes, which leaves the image C of its disk, and is opened again.
    Crash {
        site: Site,
        k: u32,
        choice: u64,
        index: u32,
        atom: Atom,
    },
}
