ghost use Rattle.std.specs.Prelude.{◌≡◌, [], Some};
ghost use Rattle.td_view.specs.Deeds.{Publishes};
ghost use Rattle.td_view.specs.Tied.{StandsAtEnd, nobody, given_more};

use crate::deed::Deed;
use crate::history::Publishes;
use crate::shown::Shown;
use atomic_table::{Join, Split};
use crossbeam_utils::rule::{Outcome, Protocol};
use left_right::reader::Reader;
use left_right::writer::Writer;
use std::collections::LinkedList;

/// What a seat at the table knows: of which history the texts are that are shown there, and each text that was given to
/// it, by the history up to that. No value of it is made.
pub struct Named {
    pub of: Option<Publishes>,
    pub given: LinkedList<Publishes>,
}

/// The rule of the table that shows the texts.
pub struct Table;

impl Protocol<Shown, Named> for Table {
    ghost use Rattle.td_view.specs.Tied.{Tied, nobody};

    ghost holds = { Tied };

    ghost first = { nobody };
}

/// The side that shows.
pub type Press = Writer<Shown, Deed, Named, Table>;

/// A side that looks.
pub type Looker = Reader<Shown, Named, Table>;

/// The first publish at the table, by which the seat of the press knows the history.
pub struct Names;

impl Outcome<Shown, Named> for Names {
    ghost then = { λ v x y w. w ≡ record { of = Some y.past; given = [] } };
}

/// Each later publish.
pub struct Shows;

impl Outcome<Shown, Named> for Shows {
    ghost then = { λ v x y w. w ≡ v };
}

/// A look. It notes the text that it is given.
pub struct Looks;

impl Outcome<Shown, Named> for Looks {
    ghost then = { λ v x y w. (w ≡ given_more v y.past) × StandsAtEnd y
        × ((p : Publishes) → v.of ≡ Some p → p.book ≡ y.past.book) };
}

/// What the press tells a new reader: of which history the texts are.
pub struct Tells;

impl Split<Named> for Tells {
    ghost left = { λ v. v };

    ghost right = { λ v. v };
}

impl Join<Named> for Tells {
    ghost both = { λ v w. w };

    ghost spent = { nobody };
}
