ghost use Rattle.std.specs.Prelude.{◌≡◌, ◌<◌, ◌^◌};
ghost use Rattle.td_script.specs.LiveScript.{calls};

use crate::command::Place;
use td_base::Dot;
use td_text::AtomList;

/// What one line asks of an editor. An index counts live atoms from 0.
#[derive(Debug, Drop)]
pub enum EditorLine {
    /// `ins E I "text"`: calls that insert each cluster of the text, one behind the other.
    Ins { index: u32, atoms: AtomList },
    /// `paste E I "text"`: calls that insert the clusters of the text in runs.
    Paste { index: u32, atoms: AtomList },
    /// `del E I K`: calls that delete at the index, so many times.
    Del { index: u32, count: u32 },
    /// `flat E root`, `flat E I left` and `flat E I right`: a call that proposes a flatten.
    Flat { place: Place },
    /// `cancel E S.Q`: a call that aborts the proposal.
    Cancel { proposal: Dot },
    /// `look E`: a look at the text.
    Look,
}

impl EditorLine {
    /// What the line adds to the calls of its editor: it asks for at most so many.
    pub fn calls(&self) -> u32
        ensures value { result ≡ calls self.now }
        ensures bound { result < 2 ^ 32 }
    {
        match self {
            EditorLine::Ins { atoms, .. } | EditorLine::Paste { atoms, .. } => atoms.len(),
            EditorLine::Del { count, .. } => *count,
            EditorLine::Flat { .. } | EditorLine::Cancel { .. } => 1,
            EditorLine::Look => 0,
        }
    }
}
