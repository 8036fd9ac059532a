ghost use Rattle.std.specs.Prelude.{◌≡◌, ◌≤◌, ◌++◌, ◌∷◌, [], IfSome, IfNone};
ghost use Rattle.std.specs.Fn.{FnOnceReturnsAt};
ghost use mathlib.Core.List.{IsPrefix};
ghost use Rattle.td_link.specs.Moments.{WasEmpty};
ghost use Rattle.td_view.specs.declared.shown.Shown.{Shown};
ghost use Rattle.td_view.specs.Publishes.{EndsWith, AreLegal, last_upto};
ghost use Rattle.td_view.specs.Deeds.{publish_of};
ghost use Rattle.td_view.specs.Looks.{IsMissed};
ghost use Rattle.td_line.specs.Editors.{IsEditor, IsSubmitted, LaterEditor, polled, when_shown, when_refused};

use crate::answer::Answer;
use crate::ask::Ask;
use crate::not_sent::NotSent;
use crate::report::Report;
use std::marker::Model;
use std::sync::Wait;
use td_base::Site;
use td_link::{Rx, Tx};
use td_op::Request;
use td_view::{Reader, Shown};

/// Who asks a site for edits, one after the other, and looks at its text. It may go to another thread. Contracts see
/// an `EditorValue`.
#[derive(Drop)]
pub struct Editor {
    pub(crate) home: Site,
    pub(crate) asks: Tx<Ask>,
    pub(crate) answers: Rx<Report>,
    pub(crate) reader: Reader,
    pub(crate) entry: u64,
    pub(crate) made: u32,
    pub(crate) calls: u32,
    // how many answers were polled, as far as a number goes
    pub(crate) polled: u64,
}

impl Model for Editor {
    ghost use Rattle.std.specs.Prelude.{length};
    ghost use Rattle.td_line.specs.Editors.{EditorValue, IsEditor, IsPolledCount};

    ghost Value = { EditorValue };

    ghost view = { λ e. record {
      home = e.home;
      asks = e.asks;
      answers = e.answers;
      reader = e.reader;
      entry = e.entry;
      made = e.made;
      calls = e.calls;
    } };

    ghost invariant = { λ e. IsEditor (record {
      home = e.home;
      asks = e.asks;
      answers = e.answers;
      reader = e.reader;
      entry = e.entry;
      made = e.made;
      calls = e.calls;
    }) × IsPolledCount e.polled (length e.answers.taken) };
}

impl Editor {
    /// Sends a request, and answers the number of its call, from 1. `Busy` where the last call has no answer polled;
    /// else `Spent` where all its calls are made; `Full` only where the queue was full. It takes no memory.
    pub fn submit<R: Wait>(&mut self, rt: &R, request: Request) -> Result<u32, NotSent>
        ensures submitted { IsSubmitted self.old request result self.new }
        ensures editor { IsEditor self.new }
        ensures later { LaterEditor self.old self.new }
    {
        if self.polled < u64::from(self.made) {
            return Err(NotSent::Busy { pending: self.made });
        }
        if self.made >= self.calls {
            return Err(NotSent::Spent { calls: self.calls });
        }
        let call = self.made + 1;
        match self.asks.try_send(rt, Ask { call, request }) {
            Ok(()) => {
                self.made = call;
                Ok(call)
            }
            Err(_) => Err(NotSent::Full),
        }
    }

    /// The next answer. None only where its queue was empty at a moment of the call. From here every look is at a text
    /// with at least the entry of that answer. It takes no memory.
    pub fn poll<R: Wait>(&mut self, rt: &R) -> Option<Answer>
        ensures polled { IfSome result (λ answer. polled self.new ≡ polled self.old ++ answer ∷ []) }
        ensures some { IfSome result (λ answer. self.new ≡ record self.old {
          answers = record self.old.answers { taken = self.new.answers.taken };
          reader = record self.old.reader { known = self.new.reader.known };
          entry = answer.entry;
        }) }
        ensures none { IfNone result ((self.new ≡ self.old) × WasEmpty self.old.answers.taken) }
        ensures later { LaterEditor self.old self.new }
    {
        let Report { answer, told } = self.answers.try_take(rt)?;
        self.reader.learn(told);
        self.entry = answer.entry;
        self.polled = self.polled.saturating_add(1);
        Some(answer)
    }

    /// What `f` answers on a text of the site that has at least the entry of the last answer polled, and is never
    /// older than one seen before. None only where `refused` rose, and then `f` is not called. It takes no memory and
    /// never waits.
    pub fn look<X, F: FnOnce(&Shown) -> X>(&mut self, f: F) -> Option<X>
        requires { F.IsAlwaysCallable f }
        ensures shown { IfSome result (λ answer. (x : Shown) × FnOnceReturnsAt F.FnOnce f x answer
            × EndsWith self.new.reader.seen (publish_of x)
            × (self.old.entry ≤ x.upto) × (last_upto self.old.reader.seen ≤ x.upto)) }
        ensures fresh { IfSome result (λ _. IsPrefix self.old.reader.known self.new.reader.seen) }
        ensures legal { IfSome result (λ _. AreLegal self.new.reader.seen) }
        ensures some { IfSome result (λ _. self.new ≡ when_shown self.new.reader.seen self.old) }
        ensures none { IfNone result (self.new ≡ when_refused self.new.reader.given self.old) }
        ensures missed { IfNone result (IsMissed self.old.reader self.new.reader) }
        ensures later { LaterEditor self.old self.new }
    {
        self.reader.look(f)
    }

    /// How often a reading was refused, up to `u64::MAX`. Only `look` raises it. It takes no memory.
    pub fn refused(&self) -> u64
        ensures { result ≡ self.now.reader.refused }
    {
        self.reader.refused()
    }

    /// The site that it belongs to. It takes no memory.
    pub fn home(&self) -> Site
        ensures { result ≡ self.now.home }
    {
        self.home
    }
}
