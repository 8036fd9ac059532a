ghost use Rattle.std.specs.Prelude.{◌≡◌, ◌+◌, ◌<◌, ◌^◌, ◌++◌, ◌∷◌, [], length, IfSome};
ghost use Rattle.td_view.specs.History.{head_of};
ghost use Rattle.td_view.specs.Publishes.{AreLegal};

use crate::publish::Publish;
use logbook::{Gain, Offer, Plain, Play, Rule, Seen, Word};
use std::marker::{Brand, PhantomData};

/// The rule of the history of publishes: its word is its length, and it is legal.
pub struct History;

impl Rule<Publish, u64> for History {
    ghost use Rattle.std.specs.Prelude.{[], ◌∷◌};
    ghost use base.Fml.{ftrue};
    ghost use Rattle.td_view.specs.History.{HoldsHistory};
    ghost use Rattle.td_view.specs.Publishes.{start};

    ghost holds = { λ cells log. HoldsHistory cells log };

    ghost first = { start ∷ [] };

    ghost hinted = { λ n log. Unit {0} };

    ghost shows = { λ log. [] };

    ghost keeps = { λ names log. ftrue };

    ghost moves = { λ ask before after answer. Unit {0} };
}

/// A token of a beginning of the history. It has no bytes.
pub type Publishes = Seen<Publish, u64, History>;

/// The word whose steps add to the history.
pub type Head = Word<Publish, u64, History>;

/// Who adds a publish gets nothing for it.
pub struct Nothing;

impl Gain<Publish, u64> for Nothing {
    ghost use base.Fml.{ftrue};

    ghost after = { λ names about answer. ftrue };
}

/// The publish that is added. The call picks it.
pub trait Entry {
    ghost use Rattle.td_view.specs.declared.publish.Publish.{Publish};

    ghost entry: { Publish };
}

impl Entry for Brand {
    ghost use Rattle.td_view.specs.Publishes.{start};

    ghost entry = { start };
}

/// A step that adds a publish.
pub struct Adds<K> {
    of: PhantomData<K>,
}

impl<K> Play<Publish, u64> for Adds<K> {
    ghost use Rattle.td_view.specs.History.{IsAdded};

    ghost then = { IsAdded };
}

impl<K: Entry> Plain<(), Publish, u64> for Adds<K> {
    ghost use Rattle.std.specs.Prelude.{None};

    ghost ask = { λ _. K.entry };

    ghost state = { λ _. None };
}

/// The history with one publish more. None only where it has another one already.
pub fn extend<K: Entry>(head: &Head, past: &Publishes, count: u64) -> Option<Publishes>
    requires head { head.now ≡ head_of past.now.book }
    requires count { (count ≡ length past.now.log) × (count < 2 ^ 63) }
    requires legal { AreLegal (past.now.log ++ K.entry ∷ []) }
    ensures book { IfSome result (λ next. next.book ≡ past.now.book) }
    ensures log { IfSome result (λ next. next.log ≡ past.now.log ++ K.entry ∷ []) }
{
    let mut seen = past.again();
    let mut offer: Offer<Publish, u64, History, Nothing> = seen.plain::<Nothing, (), Adds<K>>(&());
    let mut pen = seen.no_pen();
    let found = head.compare_exchange::<Adds<K>, Nothing>(
        count,
        count + 1,
        &mut seen,
        &mut offer,
        &mut pen,
    );
    if found == count { Some(seen) } else { None }
}
