// How a request is shown and answered.
ghost use Rattle.std.specs.Prelude.{◌≡◌, true, false, None, Some, OnOk, OnErr};
ghost use Rattle.td_link.specs.Moments.{WasFull};
ghost use Rattle.td_line.specs.Lines.{HasServed, Served, IsUnfinished, line_places};

use crate::gate::Gate;
use crate::line::Line;
use crate::report::Report;
use std::sync::Wait;
use td_base::Memory;
use td_doc::Doc;
use td_site::Site;

impl Line {
    // What is still owed: the last step is shown and the last answer sent; then the request that was taken before, and
    // is not done, is done.
    pub(crate) fn catch_up<D: Doc, G: Gate, R: Wait>(
        &mut self,
        rt: &R,
        gate: &G,
        site: &mut Site<D>,
    ) -> Result<(), Memory>
        requires served { HasServed site.old.replica.entries self.old }
        requires views { self.old.answers.mark ≡ Some site.old.writer.views }
        ensures served { Served site.old self.old site.new self.new }
        ensures asks { self.new.asks ≡ self.old.asks }
        ensures late { OnOk result (site.new.late ≡ false) }
        ensures done { OnOk result (self.new.ask ≡ None) }
        ensures full { OnOk result (self.new.owed ≡ true → WasFull line_places self.new.answers.sent) }
        ensures err { OnErr result (IsUnfinished site.new self.new) }
    {
        site.show(rt)?;
        self.send(rt, gate, site);
        if self.owed {
            return Ok(());
        }
        self.answer(rt, gate, site)?;
        Ok(())
    }

    // Does the request that was taken and is not done, if there is one, shows it and answers it.
    pub(crate) fn answer<D: Doc, G: Gate, R: Wait>(
        &mut self,
        rt: &R,
        gate: &G,
        site: &mut Site<D>,
    ) -> Result<(), Memory>
        requires rests { (site.old.late ≡ false) × (self.old.owed ≡ false) }
        requires served { HasServed site.old.replica.entries self.old }
        requires views { self.old.answers.mark ≡ Some site.old.writer.views }
        ensures served { Served site.old self.old site.new self.new }
        ensures asks { self.new.asks ≡ self.old.asks }
        ensures late { OnOk result (site.new.late ≡ false) }
        ensures done { OnOk result (self.new.ask ≡ None) }
        ensures full { OnOk result (self.new.owed ≡ true → WasFull line_places self.new.answers.sent) }
        ensures err { OnErr result (IsUnfinished site.new self.new) }
    {
        self.do_ask(site)?;
        site.show(rt)?;
        self.send(rt, gate, site);
        Ok(())
    }

    // Sends the last answer, if it is still to be sent.
    fn send<D: Doc, G: Gate, R: Wait>(&mut self, rt: &R, gate: &G, site: &Site<D>)
        requires late { site.now.late ≡ false }
        requires served { HasServed site.now.replica.entries self.old }
        requires views { self.old.answers.mark ≡ Some site.now.writer.views }
        ensures served { Served site.now self.old site.now self.new }
        ensures ask { (self.new.ask ≡ self.old.ask) × (self.new.asks ≡ self.old.asks) }
        ensures full { self.new.owed ≡ true → WasFull line_places self.new.answers.sent }
    {
        if !self.owed {
            return;
        }
        let Some(last) = self.given.last() else {
            return;
        };
        let call = last.call;
        let report = Report {
            answer: *last,
            told: site.told(),
        };
        if let Ok(()) = self.answers.try_send(rt, report) {
            self.owed = false;
            let home = site.replica().site();
            gate.after(home, self.editor, call);
        }
    }
}
