// How a site catches up with what it has been given.
ghost use Rattle.std.specs.Prelude.{◌≡◌, ◌<◌, true, false, length, OnOk, OnErr};
ghost use Rattle.td_replica.specs.Replica.{has_ready};
ghost use Rattle.td_site.specs.Shows.{texts_to};
ghost use Rattle.td_site.specs.Later.{LaterSite, OnlyNexts, NothingReady, HasWorkLeft};

use crate::site::Site;
use std::sync::Wait;
use td_base::Memory;
use td_doc::Doc;
use td_op::Input;

impl<D: Doc> Site<D> {
    /// Shows the last step, where it is not shown yet, and takes what waits and is ready, one operation after another,
    /// each step shown. After `Memory` what was done before it stays. It may wait for readers.
    pub fn catch_up<R: Wait>(&mut self, rt: &R) -> Result<(), Memory>
        ensures nexts { OnlyNexts self.old.replica.entries self.new.replica.entries }
        ensures ready { OnOk result (NothingReady self.new.replica.machine) }
        ensures late { OnOk result (self.new.late ≡ false) }
        ensures texts { OnOk result (self.new.writer.publishes
            ≡ texts_to self.new.replica (length self.new.replica.entries)) }
        ensures err { OnErr result (HasWorkLeft self.new) }
        ensures later { LaterSite self.old self.new }
    {
        self.show(rt)?;
        while self.replica().ready() {
            self.take_next(rt)?;
        }
        Ok(())
    }

    // Takes the next of what waits.
    fn take_next<R: Wait>(&mut self, rt: &R) -> Result<(), Memory>
        requires late { self.old.late ≡ false }
        requires ready { has_ready self.old.replica.machine ≡ true }
        ensures nexts { OnlyNexts self.old.replica.entries self.new.replica.entries }
        ensures fewer { OnOk result
            (length self.new.replica.machine.waiting < length self.old.replica.machine.waiting) }
        ensures late { OnOk result (self.new.late ≡ false) }
        ensures texts { OnOk result (self.new.writer.publishes
            ≡ texts_to self.new.replica (length self.new.replica.entries)) }
        ensures err { OnErr result (HasWorkLeft self.new) }
        ensures later { LaterSite self.old self.new }
    {
        self.step(&Input::Next)?;
        self.show(rt)?;
        Ok(())
    }
}
