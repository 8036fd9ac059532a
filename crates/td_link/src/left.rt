ghost use Rattle.std.specs.Prelude.{◌≡◌, [], ◌∷◌, MatchOption};

use std::collections::VecDeque;
use std::marker::Model;

/// What was sent and never taken. Contracts see it as a list.
#[derive(Drop)]
pub struct Left<T> {
    items: VecDeque<T>,
}

impl<T> Model for Left<T> {
    ghost use Rattle.std.specs.Prelude.{List};

    ghost Value = { List T };

    ghost view = { λ left. left.items.items };
}

impl<T> Left<T> {
    pub(crate) fn of(items: VecDeque<T>) -> Left<T>
        ensures { result ≡ items.items }
    {
        Left { items }
    }

    /// Takes out the first item, if there is one. It takes no memory.
    pub fn take_first(&mut self) -> Option<T>
        ensures { MatchOption result ((self.old ≡ []) × (self.new ≡ [])) (λ item. self.old ≡ item ∷ self.new) }
    {
        self.items.pop_front()
    }
}
