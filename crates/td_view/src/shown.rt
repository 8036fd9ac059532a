ghost use Rattle.std.specs.Prelude.{◌≡◌, ◌++◌, length, slice_get, slice_range, OnErr, OnOk};
ghost use Rattle.std.specs.List.{concat};

use crate::history::Publishes;
use td_base::{Atom, Bytes, Memory};
use td_rope::Rope;

/// A text that is shown, as a reader looks at it: that of one publish.
#[derive(Drop)]
pub struct Shown {
    pub(crate) upto: u64,
    pub(crate) last: u64,
    // the number of the publish, from 1
    pub(crate) count: u64,
    pub(crate) atoms: Rope,
    // the history up to it
    pub(crate) past: Publishes,
}

impl Shown {
    // The text before anything is published.
    pub(crate) fn start(atoms: Rope, past: Publishes) -> Shown
        ensures numbers { (result.upto ≡ 0) × (result.last ≡ 0) × (result.count ≡ 1) }
        ensures rest { (result.atoms ≡ atoms) × (result.past ≡ past) }
    {
        Shown {
            upto: 0,
            last: 0,
            count: 1,
            atoms,
            past,
        }
    }

    /// How many entries the history of the replica had when the text was published.
    pub fn upto(&self) -> u64
        ensures { result ≡ self.now.upto }
    {
        self.upto
    }

    /// How many atoms the text has.
    pub fn len(&self) -> u32
        ensures { result ≡ length self.now.atoms }
    {
        self.atoms.len()
    }

    /// An atom by its index from 0. None exactly from `len` on. It is looked for in the chunks of the text: who wants
    /// all of it, or a stretch, takes it by the calls below.
    pub fn atom(&self, i: u32) -> Option<Atom>
        ensures { result ≡ slice_get self.now.atoms i }
    {
        self.atoms.atom(i)
    }

    /// Adds the text, the bytes of all atoms, at the end of these bytes, in one pass. It takes memory, as `push_range`
    /// does.
    pub fn push_text(&self, text: &mut Bytes) -> Result<(), Memory>
        ensures ok { OnOk result (text.new ≡ text.old ++ concat self.now.atoms) }
        ensures err { OnErr result (text.new ≡ text.old) }
    {
        self.atoms.push_text(text)
    }

    /// The same of the atoms from an index up to another, as far as there are any.
    pub fn push_range(&self, from: u32, to: u32, text: &mut Bytes) -> Result<(), Memory>
        ensures ok { OnOk result (text.new ≡ text.old ++ concat (slice_range self.now.atoms from to)) }
        ensures err { OnErr result (text.new ≡ text.old) }
    {
        self.atoms.push_range(from, to, text)
    }
}
