use crate::item::Item;
use crate::log::Log;
use crossbeam_queue::protocol::Protocol;
use crossbeam_queue::{Pass, RuledArrayQueue};

/// The rule of a link. Each push and each pop keeps it, whatever the other thread does in between.
pub struct Linked;

impl<T: Item> Protocol<T, Log<T, T::Mark>> for Linked {
    ghost use Rattle.std.specs.Prelude.{true, [], None};
    ghost use Rattle.td_link.specs.Rule.{log, Linked as IsLinked};

    ghost holds = { IsLinked T.fits };

    ghost first = { log true true None [] [] };
}

/// The queue of a link.
pub type Line<T> = RuledArrayQueue<T, Log<T, <T as Item>::Mark>, Linked>;

/// The right of one end.
pub type End<T> = Pass<T, Log<T, <T as Item>::Mark>>;
