// A turn of a worker for one editor.
ghost use Rattle.std.specs.Prelude.{◌≡◌, ◌≤◌, ◌+◌, ◌++◌, ◌∷◌, [], length, false, None, Some, MatchOption, OnOk, OnErr};
ghost use Rattle.td_link.specs.Moments.{WasEmpty};
ghost use Rattle.td_line.specs.Lines.{HasServed, Served, Turned, IsUnfinished};

use crate::gate::Gate;
use crate::line::Line;
use std::sync::Wait;
use td_base::Memory;
use td_doc::Doc;
use td_site::Site;

impl Line {
    /// What a turn of the worker does for the editor: what is still owed first, then at most one request, which
    /// becomes one step of the replica, is shown and answered. After `Memory` what was taken is kept, and done first
    /// the next time. It may wait for readers.
    pub fn serve<D: Doc, G: Gate, R: Wait>(
        &mut self,
        rt: &R,
        gate: &G,
        site: &mut Site<D>,
    ) -> Result<(), Memory>
        requires served { HasServed site.old.replica.entries self.old }
        requires views { self.old.answers.mark ≡ Some site.old.writer.views }
        ensures served { Served site.old self.old site.new self.new }
        ensures one { length self.new.asks.taken ≤ length self.old.asks.taken + 1 }
        ensures late { OnOk result (site.new.late ≡ false) }
        ensures turned { OnOk result (Turned self.old self.new) }
        ensures err { OnErr result (IsUnfinished site.new self.new) }
    {
        self.catch_up(rt, gate, site)?;
        if self.owed {
            return Ok(());
        }
        self.take(rt, gate, site);
        self.answer(rt, gate, site)?;
        Ok(())
    }

    // Takes a request, if there is one.
    fn take<D: Doc, G: Gate, R: Wait>(&mut self, rt: &R, gate: &G, site: &Site<D>)
        requires { (self.old.ask ≡ None) × (self.old.owed ≡ false) }
        ensures same { self.new ≡ record self.old { asks = self.new.asks; ask = self.new.ask } }
        ensures link { self.new.asks.link ≡ self.old.asks.link }
        ensures taken { MatchOption self.new.ask
            (self.new.asks.taken ≡ self.old.asks.taken)
            (λ ask. self.new.asks.taken ≡ self.old.asks.taken ++ ask ∷ []) }
        ensures empty { self.new.ask ≡ None → WasEmpty self.new.asks.taken }
    {
        self.ask = self.asks.try_take(rt);
        if let Some(ask) = self.ask {
            let home = site.replica().site();
            gate.before(home, self.editor, ask.call);
        }
    }
}
