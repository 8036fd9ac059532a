ghost use Rattle.std.specs.Prelude.{◌≡◌, true, false, [], ◌∷◌, ◌++◌, List, Option, None};
ghost use Rattle.td_link.specs.Ends.{FitsMark};
ghost use Rattle.td_link.specs.Rule.{log};

use crate::item::Item;
use crate::log::Log;
use crossbeam_queue::protocol::{Join, Lesson, Outcome, Split};
use std::marker::{Brand, PhantomData};

/// A push by the sender.
pub struct Sends;

impl<T, M> Outcome<T, Log<T, M>> for Sends {
    ghost then = { λ v item w. w ≡ log v.pushes v.pops v.mark (v.sent ++ item ∷ []) v.taken };
}

// The queue holds the last of what was sent.
impl<T, M> Lesson<T, Log<T, M>> for Sends {
    ghost fact = { λ v items. (taken : List T) × (v.sent ≡ taken ++ items) };
}

/// A pop by the taker.
pub struct Takes;

impl<T: Item> Outcome<T, Log<T, T::Mark>> for Takes {
    ghost then = { λ v item w.
        (w ≡ log v.pushes v.pops v.mark v.sent (v.taken ++ item ∷ [])) × FitsMark T.fits v.mark item };
}

// What was sent by then is what was taken, and then what the queue holds.
impl<T, M> Lesson<T, Log<T, M>> for Takes {
    ghost fact = { λ v items. (sent : List T) × (sent ≡ v.taken ++ items) };
}

/// A pop by the pass of both ends, which knows all that was sent.
pub struct Drains;

impl<T, M> Outcome<T, Log<T, M>> for Drains {
    ghost then = { λ v item w. w ≡ log v.pushes v.pops v.mark v.sent (v.taken ++ item ∷ []) };
}

impl<T, M> Lesson<T, Log<T, M>> for Drains {
    ghost fact = { λ v items. v.sent ≡ v.taken ++ items };
}

/// The mark of a link that is being opened. The call picks it.
pub trait Marking<M> {
    ghost mark: { Option M };
}

impl<M> Marking<M> for Brand {
    ghost mark = { None };
}

/// A pass for each end, both with the mark.
pub struct Parts<K> {
    of: PhantomData<K>,
}

impl<T, M, K: Marking<M>> Split<Log<T, M>> for Parts<K> {
    ghost left = { λ v. log true false K.mark v.sent [] };

    ghost right = { λ v. log false true K.mark [] v.taken };
}

/// The two passes in one again.
pub struct Meets;

impl<T, M> Join<Log<T, M>> for Meets {
    ghost both = { λ v w. log true true v.mark v.sent w.taken };

    ghost spent = { log false false None [] [] };
}
