// The commands `flat` and `cancel`.
ghost use Rattle.std.specs.Prelude.{◌≡◌, ◌≤◌, OnOk};
ghost use Rattle.td_report.specs.Asking.{proposal};
ghost use Rattle.td_run.specs.Printing.{and_then, cancel, flat, flat_auto, proposed_by};
ghost use Rattle.td_world.specs.World.{size};

use crate::player::Player;
use td_base::{Dot, Memory, Site};
use td_doc::Doc;
use td_idle::best;
use td_op::Request;
use td_report::{cancel_line, flat_line, flat_none_line, proposal};
use td_script::Place;

impl<D: Doc> Player<D> {
    /// Proposes to flatten a slot.
    pub(crate) fn propose(&mut self, site: Site, place: Place) -> Result<(), Memory>
        requires { site ≤ size self.old.world }
        ensures { OnOk result (self.new ≡ and_then self.old (flat site place self.old.world)) }
    {
        self.propose_by(site, proposal(place))
    }

    /// Proposes to flatten the largest part of which every site is known to have everything.
    pub(crate) fn propose_best(&mut self, site: Site) -> Result<(), Memory>
        requires { site ≤ size self.old.world }
        ensures { OnOk result (self.new ≡ and_then self.old (flat_auto site self.old.world)) }
    {
        match best(self.alloc, self.world.replica(site))? {
            Some(idle) => self.propose_by(site, Request::Propose { slot: idle.slot }),
            None => self.print(&flat_none_line(self.alloc, site)?),
        }
    }

    // Proposes by this request.
    fn propose_by(&mut self, site: Site, request: Request) -> Result<(), Memory>
        requires { site ≤ size self.old.world }
        ensures { OnOk result (self.new ≡ and_then self.old (proposed_by site request self.old.world)) }
    {
        let before = self.world.sent();
        let reply = self.world.call(site, request)?;
        let line = flat_line(self.alloc, site, reply)?;
        self.print(&line)?;
        self.print_events(before)
    }

    /// Gives up a proposal.
    pub(crate) fn cancel(&mut self, site: Site, proposal: Dot) -> Result<(), Memory>
        requires { site ≤ size self.old.world }
        ensures { OnOk result (self.new ≡ and_then self.old (cancel site proposal self.old.world)) }
    {
        let before = self.world.sent();
        let reply = self.world.call(site, Request::Cancel { proposal })?;
        let line = cancel_line(self.alloc, site, proposal, reply)?;
        self.print(&line)?;
        self.print_events(before)
    }
}
