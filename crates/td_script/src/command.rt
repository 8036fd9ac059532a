use td_base::{Bit, Dot, Site};
use td_text::AtomList;

/// A command of a script. An index counts live atoms from 0, a message counts from 1.
#[derive(Debug, Drop)]
pub enum Command {
    /// `sites N`: the number of sites, first and once.
    Sites {
        n: u8,
    },
    /// `ins R I "text"`: inserts each cluster of the text, one behind the other.
    Ins {
        site: Site,
        index: u32,
        atoms: AtomList,
    },
    /// `paste R I "text"`: inserts the clusters of the text in runs.
    Paste {
        site: Site,
        index: u32,
        atoms: AtomList,
    },
    /// `del R I K`: deletes at the index, so many times.
    Del {
        site: Site,
        index: u32,
        count: u32,
    },
    /// `flat R root`, `flat R I left` and `flat R I right`: proposes a flatten.
    Flat {
        site: Site,
        place: Place,
    },
    /// `flat R auto`: proposes a flatten of the best idle slot, if there is one.
    FlatAuto {
        site: Site,
    },
    /// `cancel R S.Q`: aborts the proposal.
    Cancel {
        site: Site,
        proposal: Dot,
    },
    /// `give R M`: gives the message of this number.
    Give {
        site: Site,
        number: u64,
    },
    /// `give R all`: gives all messages that the site does not know.
    GiveAll {
        site: Site,
    },
    /// `settle`: gives all messages until none is left.
    Settle,
    /// `show R`: prints the text.
    Show {
        site: Site,
    },
    /// `tree R`: prints the rows.
    Tree {
        site: Site,
    },
    /// `count R`: prints how many atoms, rows, waiting operations and holds there are.
    Count {
        site: Site,
    },
    /// `mark R M I K` and `unmark R M I K`: adds the name to so many live atoms from the index on, or removes it.
    Mark {
        site: Site,
        add: bool,
        name: u8,
        index: u32,
        count: u32,
    },
    /// `meet R Q`: gives the site the operations on marks of the other one that it does not have.
    Meet {
        site: Site,
        other: Site,
    },
    /// `marks R`: prints the marked text.
    Marks {
        site: Site,
    },
}

/// What a `flat` asks to flatten.
#[derive(Clone, Copy, Debug, PartialEq, Eq)]
pub enum Place {
    /// `root`: the whole document.
    Root,
    /// The slot beside the atom at the index.
    Beside { index: u32, bit: Bit },
}
