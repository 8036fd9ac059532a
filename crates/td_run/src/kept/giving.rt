ghost use Rattle.std.specs.Prelude.{◌≡◌, ◌≤◌, OnOk};
ghost use Rattle.td_run.specs.KeptPrinting.{kept_give};
ghost use Rattle.td_run.specs.Printing.{and_then};
ghost use Rattle.td_world.specs.World.{size};

use crate::kept::player::KeptPlayer;
use td_base::{Memory, Site};
use td_doc::Doc;
use td_journal::KeptFault;
use td_report::{give_full_line, give_line};

impl<D: Doc> KeptPlayer<D> {
    /// Gives the message with this number.
    pub(crate) fn give(&mut self, site: Site, number: u64) -> Result<(), Memory>
        requires { site ≤ size self.old.world }
        ensures { OnOk result (self.new ≡ and_then self.old (kept_give site number self.old.world)) }
    {
        let before = self.world.sent();
        let line = match self.world.give(site, number) {
            Ok(given) => give_line(self.alloc, site, number, given)?,
            Err(KeptFault::Full { len }) => give_full_line(self.alloc, site, number, len)?,
            Err(_) => return Err(Memory),
        };
        self.print(&line)?;
        self.print_events(before)
    }
}
