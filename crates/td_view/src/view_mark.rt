ghost use Rattle.std.specs.Prelude.{◌≡◌};

use crate::history::Publishes;
use std::marker::Model;

/// Says which views are meant: those that one call of `views` made together. It has no bytes. Contracts see the book of
/// their history.
#[derive(Drop)]
pub struct ViewMark {
    past: Publishes,
}

impl Model for ViewMark {
    ghost use Rattle.logbook.specs.Pages.{Book};

    ghost Value = { Book };

    ghost view = { λ mark. mark.past.book };
}

impl ViewMark {
    pub(crate) fn new(past: Publishes) -> ViewMark
        ensures { result ≡ past.book }
    {
        ViewMark { past }
    }
}
