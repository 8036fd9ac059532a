ghost use Rattle.std.specs.Prelude.{◌≡◌, ◌∷◌, [], ◌++◌, MatchResult, IfErr};
ghost use Rattle.td_link.specs.Ends.{FitsMark};
ghost use Rattle.td_link.specs.Moments.{WasFull};

use crate::full::Full;
use crate::item::Item;
use crate::rule::{End, Line};
use crate::steps::Sends;
use std::alloc::Global;
use std::marker::Model;
use std::sync::{Arc, Wait};

/// The end of a link that sends. It may go to another thread. Contracts see which link it is an end of, how many items
/// the queue can hold, the mark, and the items sent.
#[derive(Drop)]
pub struct Tx<T: Item> {
    pub(crate) line: Arc<Line<T>, Global>,
    pub(crate) pass: End<T>,
}

impl<T: Item> Model for Tx<T> {
    ghost use Rattle.std.specs.Arc.{arc_value};
    ghost use Rattle.crossbeam_queue.specs.Passes.{view as known, IsPassOf, ruled_capacity};
    ghost use Rattle.td_link.specs.Ends.{TxValue};
    ghost use Rattle.td_link.specs.Rule.{IsTxPass};

    ghost Value = { TxValue T T.Mark };

    ghost view = { λ tx. record {
      link = tx.pass.table_id;
      cap = ruled_capacity (arc_value tx.line);
      mark = (known tx.pass).mark;
      sent = (known tx.pass).sent;
    } };

    ghost invariant = { λ tx. IsPassOf (arc_value tx.line) tx.pass × IsTxPass (known tx.pass) };
}

impl<T: Item> Tx<T> {
    /// Sends an item. `Full` comes only where the queue held as many items as it can at a moment of the call, and hands
    /// the item back. It takes no memory.
    pub fn try_send<R: Wait>(&mut self, rt: &R, item: T) -> Result<(), Full<T>>
        requires { FitsMark T.fits self.old.mark item }
        ensures sent { MatchResult result
            (λ _. self.new ≡ record self.old { sent = self.old.sent ++ item ∷ [] })
            (λ full. (full.item ≡ item) × (self.new ≡ self.old)) }
        ensures full { IfErr result (λ _. WasFull self.old.cap self.old.sent) }
    {
        match self.line.push_as::<Sends, R>(rt, &mut self.pass, item) {
            Ok(()) => Ok(()),
            Err(item) => Err(Full { item }),
        }
    }
}
