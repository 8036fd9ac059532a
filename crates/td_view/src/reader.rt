ghost use Rattle.std.specs.Prelude.{◌≡◌, ◌++◌, ◌∷◌, [], length, IfNone, IfSome};
ghost use Rattle.std.specs.Fn.{FnOnceReturnsAt};
ghost use mathlib.Core.List.{IsPrefix};
ghost use Rattle.left_right.specs.Sides.{view as seat};
ghost use Rattle.td_view.specs.declared.shown.Shown.{Shown};
ghost use Rattle.td_view.specs.Publishes.{AreLegal, EndsWith};
ghost use Rattle.td_view.specs.Deeds.{publish_of};
ghost use Rattle.td_view.specs.Tied.{IsUngiven};
ghost use Rattle.td_view.specs.Values.{new_reader, one_more};
ghost use Rattle.td_view.specs.Looks.{IsMissed};

use crate::beginnings::{compare, longer};
use crate::history::Publishes;
use crate::refusals::raised;
use crate::shown::Shown;
use crate::table::{Looker, Looks};
use crate::told::Told;
use crate::view_mark::ViewMark;
use std::marker::Model;

/// Who looks at what a writer publishes, and never waits. It may go to another thread. Contracts see which views it
/// reads, what was published up to its last look, the longest list that it saw or learnt, how often a reading was
/// refused, and each text that `left_right` gave it.
#[derive(Drop)]
pub struct Reader {
    // None only within a look
    looker: Option<Looker>,
    seen: Publishes,
    known: Publishes,
    // the length of what is known
    count: u64,
    refusals: u64,
}

impl Model for Reader {
    ghost use Rattle.std.specs.Option.{ForSome};
    ghost use Rattle.left_right.specs.Sides.{view as seat};
    ghost use Rattle.td_view.specs.Tied.{KnowsPast};
    ghost use Rattle.td_view.specs.Values.{ReaderValue};
    ghost use Rattle.td_view.specs.Looks.{logs_of};
    ghost use Rattle.td_view.specs.Parts.{IsReaderParts};

    ghost Value = { ReaderValue };

    ghost view = { λ r. record {
      views = r.known.book;
      seen = r.seen.log;
      known = r.known.log;
      refused = r.refusals;
      given = logs_of r.looker (λ looker. (seat looker.place).given);
    } };

    ghost invariant = { λ r.
        IsReaderParts r.seen r.known r.count × ForSome r.looker (λ looker. KnowsPast r.known (seat looker.place)) };
}

impl Reader {
    pub(crate) fn new(looker: Looker, past: &Publishes, count: u64) -> Reader
        requires count { count ≡ length past.now.log }
        requires fresh { IsUngiven past.now (seat looker.place) }
        ensures { result ≡ new_reader past.now.book past.now.log }
    {
        Reader {
            looker: Some(looker),
            seen: past.again(),
            known: past.again(),
            count,
            refusals: 0,
        }
    }

    /// From here every look is at that publish or a later one. It takes no memory.
    pub fn learn(&mut self, told: Told)
        requires { told.views ≡ self.old.views }
        ensures same { self.new ≡ record self.old { known = self.new.known } }
        ensures before { IsPrefix self.old.known self.new.known }
        ensures told { IsPrefix told.list self.new.known }
        ensures legal { AreLegal self.new.known }
    {
        let (past, other) = told.parts();
        let (known, count) = longer(&self.known, self.count, &past, other);
        self.known = known;
        self.count = count;
    }

    /// What `f` answers on the text of one publish: of one that is no older than any that the reader saw or learnt of.
    /// None where `left_right` refused the reading, or gave an older text, and then `f` is not called. It takes no
    /// memory and never waits. Each text that `left_right` gives is noted, so none is passed over: one that is no older
    /// is shown.
    pub fn look<X, F: FnOnce(&Shown) -> X>(&mut self, f: F) -> Option<X>
        requires { F.IsAlwaysCallable f }
        ensures shown { IfSome result (λ answer.
            (x : Shown) × FnOnceReturnsAt F.FnOnce f x answer × EndsWith self.new.seen (publish_of x)) }
        ensures later { IfSome result (λ _.
            IsPrefix self.old.known self.new.seen × IsPrefix self.old.seen self.new.seen) }
        ensures legal { IfSome result (λ _. AreLegal self.new.seen) }
        ensures some { IfSome result (λ _. self.new ≡ record self.old {
          seen = self.new.seen;
          known = self.new.seen;
          given = self.old.given ++ self.new.seen ∷ [];
        }) }
        ensures none { IfNone result (self.new ≡ record self.old {
          refused = one_more self.old.refused;
          given = self.new.given;
        }) }
        ensures missed { IfNone result (IsMissed self.old self.new) }
    {
        let Some(looker) = self.looker.take() else {
            self.refusals = raised(self.refusals);
            return None;
        };
        let reading = match looker.enter_as::<Looks>() {
            Ok(reading) => reading,
            Err(looker) => {
                self.looker = Some(looker);
                self.refusals = raised(self.refusals);
                return None;
            }
        };
        let shown = reading.get();
        let count = shown.count;
        let past = shown.past.again();
        if count < self.count {
            compare(&past, &self.known);
            self.looker = Some(reading.leave());
            self.refusals = raised(self.refusals);
            return None;
        }
        let answer = f(shown);
        compare(&self.known, &past);
        self.looker = Some(reading.leave());
        self.seen = past.again();
        self.known = past;
        self.count = count;
        Some(answer)
    }

    /// How often a reading was refused, up to `u64::MAX`. Only `look` raises it. It takes no memory.
    pub fn refused(&self) -> u64
        ensures { result ≡ self.now.refused }
    {
        self.refusals
    }

    /// Which views it reads. It takes no memory.
    pub fn mark(&self) -> ViewMark
        ensures { result ≡ self.now.views }
    {
        ViewMark::new(self.known.again())
    }
}
