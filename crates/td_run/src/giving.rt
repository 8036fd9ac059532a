// The commands `give` and `settle`.
ghost use Rattle.std.specs.Prelude.{◌≡◌, ◌≤◌, length, Some, OnOk};
ghost use Rattle.td_base.specs.Lists.{kth};
ghost use Rattle.td_op.specs.declared.message.Message.{Message};
ghost use Rattle.td_run.specs.Printing.{and_then, give, give_each, give_wanted, Settles};
ghost use Rattle.td_world.specs.World.{size};

use crate::player::Player;
use td_base::{Memory, Site};
use td_doc::Doc;
use td_report::{give_line, settle_line};

impl<D: Doc> Player<D> {
    /// Gives the message with this number.
    pub(crate) fn give(&mut self, site: Site, number: u64) -> Result<(), Memory>
        requires { site ≤ size self.old.world }
        ensures { OnOk result (self.new ≡ and_then self.old (give site number self.old.world)) }
    {
        let before = self.world.sent();
        let given = self.world.give(site, number)?;
        let line = give_line(self.alloc, site, number, given)?;
        self.print(&line)?;
        self.print_events(before)
    }

    /// Gives what was sent before and the site wants, message by message.
    pub(crate) fn give_all(&mut self, site: Site) -> Result<(), Memory>
        requires { site ≤ size self.old.world }
        ensures { OnOk result (self.new ≡ and_then self.old (give_each site 1 self.old.world.sent self.old.world)) }
    {
        for number in self.world.passed(site)..self.world.sent() {
            self.offer(site, number + 1)?;
        }
        Ok(())
    }

    // Gives the message with this number, where the site wants it.
    fn offer(&mut self, site: Site, number: u64) -> Result<(), Memory>
        requires within { site ≤ size self.old.world }
        requires sent { number ≤ length self.old.world.sent }
        ensures { (m : Message) → kth number self.old.world.sent ≡ Some m
            → OnOk result (self.new ≡ and_then self.old (give_wanted site number m self.old.world)) }
    {
        let before = self.world.sent();
        let Some(given) = self.world.offer(site, number)? else {
            return Ok(());
        };
        let line = give_line(self.alloc, site, number, given)?;
        self.print(&line)?;
        self.print_events(before)
    }

    /// Gives what was sent until nobody wants anything.
    pub(crate) fn settle(&mut self) -> Result<(), Memory>
        ensures { OnOk result (Settles self.old self.new) }
    {
        let before = self.world.sent();
        let given = self.world.settle()?;
        self.print_events(before)?;
        let line = settle_line(self.alloc, given)?;
        self.print(&line)
    }
}
