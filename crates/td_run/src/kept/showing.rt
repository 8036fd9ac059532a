ghost use Rattle.std.specs.Prelude.{◌≡◌, ◌≤◌, OnOk};
ghost use Rattle.td_report.specs.Tree.{show_line};
ghost use Rattle.td_run.specs.Printing.{own_text, taken_text, with_line};
ghost use Rattle.td_world.specs.World.{size};

use crate::kept::player::KeptPlayer;
use td_base::{Memory, Site};
use td_doc::Doc;
use td_report::show_line;

impl<D: Doc> KeptPlayer<D> {
    /// Prints the text of a site.
    pub(crate) fn show(&mut self, site: Site) -> Result<(), Memory>
        requires { site ≤ size self.old.world }
        ensures own { OnOk result (self.new ≡ with_line (show_line site (own_text self.old.world site)) self.old) }
        ensures taken { OnOk result (self.new ≡ with_line (show_line site (taken_text self.old.world site)) self.old) }
    {
        if self.world.is_spent() {
            return Err(Memory);
        }
        let text = self.world.kept(site).replica().text(self.alloc)?;
        let line = show_line(self.alloc, site, text.as_slice())?;
        self.print(&line)
    }
}
