// The commands `flat` and `cancel`.
ghost use Rattle.std.specs.Prelude.{◌≡◌, ◌≤◌, OnOk};
ghost use Rattle.td_run.specs.KeptPrinting.{kept_cancel, kept_flat};
ghost use Rattle.td_run.specs.Printing.{and_then};
ghost use Rattle.td_world.specs.World.{size};

use crate::kept::player::KeptPlayer;
use td_base::{Dot, Memory, Site};
use td_doc::Doc;
use td_journal::KeptFault;
use td_op::Request;
use td_report::{cancel_full_line, cancel_line, flat_full_line, flat_line, proposal};
use td_script::Place;

impl<D: Doc> KeptPlayer<D> {
    /// Proposes to flatten a slot.
    pub(crate) fn propose(&mut self, site: Site, place: Place) -> Result<(), Memory>
        requires { site ≤ size self.old.world }
        ensures { OnOk result (self.new ≡ and_then self.old (kept_flat site place self.old.world)) }
    {
        let before = self.world.sent();
        let line = match self.world.call(site, proposal(place)) {
            Ok(reply) => flat_line(self.alloc, site, reply)?,
            Err(KeptFault::Full { len }) => flat_full_line(self.alloc, site, len)?,
            Err(_) => return Err(Memory),
        };
        self.print(&line)?;
        self.print_events(before)
    }

    /// Gives up a proposal.
    pub(crate) fn cancel(&mut self, site: Site, proposal: Dot) -> Result<(), Memory>
        requires { site ≤ size self.old.world }
        ensures { OnOk result (self.new ≡ and_then self.old (kept_cancel site proposal self.old.world)) }
    {
        let before = self.world.sent();
        let line = match self.world.call(site, Request::Cancel { proposal }) {
            Ok(reply) => cancel_line(self.alloc, site, proposal, reply)?,
            Err(KeptFault::Full { len }) => cancel_full_line(self.alloc, site, proposal, len)?,
            Err(_) => return Err(Memory),
        };
        self.print(&line)?;
        self.print_events(before)
    }
}
