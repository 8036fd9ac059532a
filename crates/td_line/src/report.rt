use crate::answer::Answer;
use td_link::Item;
use td_view::{Told, ViewMark};

/// An answer on its way to an editor, with what was shown by then: at least its own entry.
#[derive(Drop)]
pub struct Report {
    pub answer: Answer,
    pub told: Told,
}

impl Item for Report {
    type Mark = ViewMark;

    ghost use Rattle.std.specs.Prelude.{◌≡◌};
    ghost use Rattle.td_site.specs.Shows.{UptoAtLeast};

    ghost fits = { λ views report. (report.told.views ≡ views) × UptoAtLeast report.told.list report.answer.entry };
}
