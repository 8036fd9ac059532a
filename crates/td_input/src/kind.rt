// The first byte of an input.
pub(crate) const LOCAL: u8 = 1;

pub(crate) const TAKE: u8 = 2;

pub(crate) const NEXT: u8 = 3;

// The first byte of a request, from the least to the greatest.
pub(crate) const INSERT: u8 = 1;

pub(crate) const INSERT_AFTER: u8 = 2;

pub(crate) const DELETE: u8 = 3;

pub(crate) const DELETE_ATOM: u8 = 4;

pub(crate) const PROPOSE: u8 = 5;

pub(crate) const PROPOSE_AT: u8 = 6;

pub(crate) const CANCEL: u8 = 7;

pub(crate) const PASTE: u8 = 8;

pub(crate) const PASTE_AFTER: u8 = 9;

// The first byte of a place: at the start, or behind an atom.
pub(crate) const START: u8 = 0;

pub(crate) const BEHIND: u8 = 1;
