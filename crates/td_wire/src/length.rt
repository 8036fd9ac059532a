// How many bytes the parts of a packet have, at most where that differs.
use td_base::{MAX_RUN_LEN, MAX_SITE};

/// The letter and the digit in front.
const MARK_LEN: usize = 2;

/// The kind of message.
const KIND_LEN: usize = 1;

const NUMBER_LEN: usize = 4;

/// A site, and its number there.
pub(crate) const DOT_LEN: usize = 1 + NUMBER_LEN;

/// A dot and an offset.
pub(crate) const IDENTITY_LEN: usize = DOT_LEN + 1;

/// The tag, a bit and an identity.
pub(crate) const MAX_SLOT_LEN: usize = 2 + IDENTITY_LEN;

/// How many atoms, a length for each, and their bytes.
pub(crate) const MAX_RUN_PART_LEN: usize = 1 + MAX_RUN_LEN + MAX_RUN_LEN;

/// How many sites, and a number for each.
pub(crate) const MAX_DEPS_LEN: usize = 1 + MAX_SITE as usize * NUMBER_LEN;

/// That of an insert.
pub(crate) const MAX_BODY_LEN: usize = MAX_SLOT_LEN + MAX_RUN_PART_LEN;

/// With the kind in front.
pub(crate) const MAX_OP_LEN: usize = KIND_LEN + DOT_LEN + MAX_DEPS_LEN + MAX_BODY_LEN;

/// The same of a vote: its voter, proposal and answer.
pub(crate) const VOTE_LEN: usize = KIND_LEN + 1 + DOT_LEN + 1;

/// The greatest length of a spelling, 402: that of an insert at 64 sites, in a slot at an atom, of a run of 64 bytes
/// in 64 atoms.
pub const MAX_PACKET_LEN: usize = MARK_LEN + MAX_OP_LEN;
