use crate::command::Place;
use td_base::{Bytes, Dot};
use td_text::AtomList;

/// A command of a shell, to its own site. An index counts live atoms from 0, a message that was sent counts from 1.
#[derive(Debug, Drop)]
pub enum ShellCommand {
    /// `ins I "text"`: inserts each cluster of the text, one behind the other.
    Ins { index: u32, atoms: AtomList },
    /// `paste I "text"`: inserts the clusters of the text in runs.
    Paste { index: u32, atoms: AtomList },
    /// `del I K`: deletes at the index, so many times.
    Del { index: u32, count: u32 },
    /// `flat root`, `flat I left` and `flat I right`: proposes a flatten.
    Flat { place: Place },
    /// `flat auto`: proposes a flatten of the best idle slot, if there is one.
    FlatAuto,
    /// `cancel S.Q`: aborts the proposal.
    Cancel { proposal: Dot },
    /// `take HEX`: takes a packet of another site.
    Take { packet: Bytes },
    /// `send K`: prints the messages that were sent from this number on.
    Send { from: u32 },
    /// `show`: prints the text.
    Show,
    /// `tree`: prints the rows.
    Tree,
    /// `count`: prints how many atoms, rows, waiting operations and holds there are.
    Count,
}
