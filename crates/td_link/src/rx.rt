ghost use Rattle.std.specs.Prelude.{◌≡◌, ◌∷◌, [], ◌++◌, MatchOption, IfNone, IfSome};
ghost use Rattle.td_link.specs.Ends.{FitsMark};
ghost use Rattle.td_link.specs.Moments.{WasEmpty};

use crate::item::Item;
use crate::rule::{End, Line};
use crate::steps::Takes;
use std::alloc::Global;
use std::marker::Model;
use std::sync::{Arc, Wait};

/// The end of a link that takes. It may go to another thread. Contracts see which link it is an end of, how many items
/// the queue can hold, the mark, and the items taken.
#[derive(Drop)]
pub struct Rx<T: Item> {
    pub(crate) line: Arc<Line<T>, Global>,
    pub(crate) pass: End<T>,
}

impl<T: Item> Model for Rx<T> {
    ghost use Rattle.std.specs.Arc.{arc_value};
    ghost use Rattle.crossbeam_queue.specs.Passes.{view as known, IsPassOf, ruled_capacity};
    ghost use Rattle.td_link.specs.Ends.{RxValue};
    ghost use Rattle.td_link.specs.Rule.{IsRxPass};

    ghost Value = { RxValue T T.Mark };

    ghost view = { λ rx. record {
      link = rx.pass.table_id;
      cap = ruled_capacity (arc_value rx.line);
      mark = (known rx.pass).mark;
      taken = (known rx.pass).taken;
    } };

    ghost invariant = { λ rx. IsPassOf (arc_value rx.line) rx.pass × IsRxPass (known rx.pass) };
}

impl<T: Item> Rx<T> {
    /// Takes the next item. None comes only where the queue was empty at a moment of the call. It takes no memory.
    pub fn try_take<R: Wait>(&mut self, rt: &R) -> Option<T>
        ensures taken { MatchOption result
            (self.new ≡ self.old)
            (λ item. self.new ≡ record self.old { taken = self.old.taken ++ item ∷ [] }) }
        ensures fits { IfSome result (λ item. FitsMark T.fits self.old.mark item) }
        ensures empty { IfNone result (WasEmpty self.old.taken) }
    {
        self.line.pop_as::<Takes, R>(rt, &mut self.pass)
    }
}
