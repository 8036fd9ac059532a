ghost use Rattle.std.specs.Prelude.{ℕ, ◌≤◌, List, ◌++◌};
ghost use mathlib.Core.List.{IsPrefix};
ghost use Rattle.logbook.specs.Pages.{Book};
ghost use Rattle.td_base.specs.Lists.{In};
ghost use Rattle.td_view.specs.declared.publish.Publish.{Publish};
ghost use Rattle.td_view.specs.Publishes.{AreLegal, countdown, last_upto};
ghost use Rattle.td_view.specs.Values.{ToldValue, tolds};

/// A reader that has learnt what `Writer::end` told, and then looked, has seen no more than the writer published: this
/// log, and the publishes of the end.
#[tactic(auto, using(crate::proofs::Endings::told_within))]
pub fn a_reader_of_the_end_is_within()
    ensures { (views : Book) (log : List Publish) (shown : Publish) (count : ℕ) (told : ToldValue) (seen : List Publish)
        → In told (tolds views log shown count) → IsPrefix told.list seen → AreLegal seen
        → IsPrefix seen (log ++ countdown shown count) }
{}

/// From a list that may come to a longer one the upto of the last publish does not fall.
#[tactic(auto, using(crate::proofs::Rising::rises))]
pub fn upto_never_falls()
    ensures { (before after : List Publish) → IsPrefix before after → AreLegal after
        → last_upto before ≤ last_upto after }
{}
