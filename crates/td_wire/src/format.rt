ghost use Rattle.std.specs.Prelude.{◌≡◌};
ghost use Rattle.td_wire.specs.Reading.{max_site};

use td_base::MAX_SITE;

/// The formats of a message on a wire.
#[derive(Clone, Copy, Debug, PartialEq, Eq)]
pub enum Format {
    /// The older one, which is only read: up to 16 sites, runs of one atom, and no offsets.
    One,
    /// The one that is written.
    Two,
}

/// The greatest site that format 1 can name.
pub(crate) const MAX_OLD_SITE: u8 = 16;

/// The first byte of the mark.
pub(crate) const LETTER: u8 = b'T';

/// The second byte of the mark in each format.
pub(crate) const DIGIT_ONE: u8 = b'1';

pub(crate) const DIGIT_TWO: u8 = b'2';

/// The kinds of message, from the least to the greatest.
pub(crate) const INSERT: u8 = 1;

pub(crate) const DELETE: u8 = 2;

pub(crate) const PROPOSE: u8 = 3;

pub(crate) const COMMIT: u8 = 4;

pub(crate) const ABORT: u8 = 5;

pub(crate) const VOTE: u8 = 6;

/// The tags of a slot: the root, and beside an atom.
pub(crate) const ROOT: u8 = 0;

pub(crate) const AT: u8 = 1;

/// The bits of a slot.
pub(crate) const LEFT: u8 = 0;

pub(crate) const RIGHT: u8 = 1;

/// The answers of a vote.
pub(crate) const NO: u8 = 0;

pub(crate) const YES: u8 = 1;

impl Format {
    /// The greatest site that the format can name.
    pub(crate) fn max_site(self) -> u8
        ensures { result ≡ max_site self }
    {
        match self {
            Format::One => MAX_OLD_SITE,
            Format::Two => MAX_SITE,
        }
    }
}
