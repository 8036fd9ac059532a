// What a kept replica is made of. Its calls are in `calls`: their contracts cite how it is seen, and that names it.
ghost use Rattle.std.specs.Prelude.{◌≡◌, false};
ghost use Rattle.td_journal.specs.Journal.{inputs_of};
ghost use Rattle.td_journal.specs.Kept.{IsKept, IsCounted, AreIndexed};

use crate::check::Check;
use crate::piece::Piece;
use std::alloc::Global;
use td_disk::{Disk, Gated};
use td_doc::Doc;
use td_replica::Replica;

/// A replica whose inputs are kept on a disk. What it sends may be let out as far as `released` says.
#[derive(Drop)]
pub struct Kept<D: Doc, K: Disk> {
    pub(crate) alloc: Global,
    pub(crate) replica: Replica<D>,
    pub(crate) journal: Gated<K>,
    // that behind the last record, also of those that are staged
    pub(crate) check: Check,
    pub(crate) staged: Piece,
    // how many entries are acknowledged
    pub(crate) acknowledged: u64,
    // how many messages these sent
    pub(crate) released: u64,
    // a commit failed at the disk
    pub(crate) closed: bool,
    ghost counted: { IsCounted replica acknowledged released },
    ghost writable: { AreIndexed (inputs_of replica.entries) },
    ghost kept: { closed ≡ false → IsKept K.Disk replica journal check staged acknowledged },
}
