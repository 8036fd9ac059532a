ghost use Rattle.std.specs.Prelude.{◌≡◌, ◌≤◌, OnOk};
ghost use Rattle.std.specs.Int.{IsInRange};
ghost use Rattle.td_script.specs.declared.kept.script.TheConstants.{DISK_CALLS};
ghost use Rattle.td_run.specs.KeptPrinting.{kept_crash};
ghost use Rattle.td_run.specs.Printing.{and_then};
ghost use Rattle.td_world.specs.World.{size};

use crate::kept::player::KeptPlayer;
use td_base::{Atom, Memory, Site};
use td_doc::Doc;
use td_journal::KeptFault;
use td_op::Request;
use td_report::{crash_full_line, crash_line};

/// A crash of a site: while it inserts an atom at an index, the disk call with this number fails, and then the site
/// crashes, which leaves the image that `choice` names, and is opened again.
#[derive(Clone, Copy, Debug)]
pub(crate) struct Crash {
    pub k: u32,
    pub choice: u64,
    pub index: u32,
    pub atom: Atom,
}

impl<D: Doc> KeptPlayer<D> {
    /// A site crashes and comes back.
    pub(crate) fn crash(&mut self, site: Site, crash: &Crash) -> Result<(), Memory>
        requires within { site ≤ size self.old.world }
        requires call { IsInRange 1 DISK_CALLS crash.now.k }
        ensures { OnOk result (self.new ≡ and_then self.old
            (kept_crash site crash.now.k crash.now.choice crash.now.index crash.now.atom self.old.world)) }
    {
        let before = self.world.sent();
        let request = Request::Insert {
            index: crash.index,
            atom: crash.atom,
        };
        let line = match self.world.crash(site, crash.k, crash.choice, request) {
            Ok(entries) => crash_line(self.alloc, site, entries)?,
            Err(KeptFault::Full { len }) => crash_full_line(self.alloc, site, len)?,
            Err(_) => return Err(Memory),
        };
        self.print(&line)?;
        self.print_events(before)
    }
}
