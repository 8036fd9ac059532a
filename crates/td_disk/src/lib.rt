//! A disk that may crash, as who must lose nothing sees it, and a file on it that grows by whole pieces.
//!
//! `Disk` is the contract: what a disk reads as, and what a crash at each moment may leave of it. `put` writes and
//! syncs, `begin` writes the first bytes, and `Gated` grows a file: a crash leaves the file with a piece or without
//! it, and once `grow` has answered Ok, with it. `MemDisk` is a disk in memory, which fails and crashes as it is told.
//! `FileDisk` stands before a file of the system. Begin at `disk`, at `gated`, and at `specs/Device.antt`.
#![tactic(auto)]

mod disk;
mod event;
mod file_disk;
mod fresh;
mod gated;
mod laws;
mod mem_disk;
mod record;
mod writing;

pub use disk::{Disk, MAX_DISK_LEN};
pub use file_disk::FileDisk;
pub use fresh::begin;
pub use gated::Gated;
pub use laws::a_piece_is_there_or_it_is_not;
pub use mem_disk::MemDisk;
pub use writing::put;
