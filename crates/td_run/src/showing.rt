// The commands that print what a site has, and change nothing.
ghost use Rattle.std.specs.Prelude.{◌≡◌, ◌≤◌, OnOk};
ghost use Rattle.td_report.specs.Numbers.{count_line};
ghost use Rattle.td_report.specs.Tree.{show_line, tree_lines};
ghost use Rattle.td_run.specs.Printing.{own_text, taken_text, with_line};
ghost use Rattle.td_world.specs.World.{machine_of, size};

use crate::player::Player;
use td_base::{Memory, Site};
use td_doc::Doc;
use td_report::{count_line, show_line, tree_lines};

impl<D: Doc> Player<D> {
    /// Prints the text of a site.
    pub(crate) fn show(&mut self, site: Site) -> Result<(), Memory>
        requires { site ≤ size self.old.world }
        ensures own { OnOk result (self.new ≡ with_line (show_line site (own_text self.old.world site)) self.old) }
        ensures taken { OnOk result (self.new ≡ with_line (show_line site (taken_text self.old.world site)) self.old) }
    {
        let text = self.world.replica(site).text(self.alloc)?;
        let line = show_line(self.alloc, site, text.as_slice())?;
        self.print(&line)
    }

    /// Prints the rows of a site.
    pub(crate) fn tree(&mut self, site: Site) -> Result<(), Memory>
        requires { site ≤ size self.old.world }
        ensures { OnOk result (self.new
            ≡ with_line (tree_lines site (machine_of self.old.world site).doc) self.old) }
    {
        let replica = self.world.replica(site);
        // tells that its history is legal, so that its document obeys the rules of one
        replica.entries();
        let lines = tree_lines(self.alloc, site, replica.doc())?;
        self.print(&lines)
    }

    /// Prints how much a site has.
    pub(crate) fn count(&mut self, site: Site) -> Result<(), Memory>
        requires { site ≤ size self.old.world }
        ensures { OnOk result (self.new ≡ with_line (count_line (machine_of self.old.world site)) self.old) }
    {
        let line = count_line(self.alloc, self.world.replica(site))?;
        self.print(&line)
    }
}
