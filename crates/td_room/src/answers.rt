ghost use Rattle.std.specs.Prelude.{◌≡◌, ◌++◌, ◌∷◌, [], ◌<◌, length, IfOk, OnOk};

use std::alloc::Global;
use std::marker::Model;
use td_base::Memory;
use td_line::Answer;

/// The answers of one editor, one for each of its calls, in order. Contracts see a list.
#[derive(Drop)]
pub struct Answers {
    pub(crate) given: Vec<Answer>,
}

impl Model for Answers {
    ghost use Rattle.std.specs.Prelude.{List};
    ghost use Rattle.td_line.specs.declared.answer.Answer.{Answer};

    ghost Value = { List Answer };

    ghost view = { λ a. a.given.items };
}

impl Answers {
    pub(crate) fn of(given: Vec<Answer>) -> Answers
        ensures { result ≡ given.items }
    {
        Answers { given }
    }

    /// The answers. It takes no memory.
    pub fn as_slice(&self) -> &[Answer]
        ensures { result.now ≡ self.now }
    {
        &self.given
    }
}

// The answers of all editors of one site, in order.
#[derive(Drop)]
pub(crate) struct SiteAnswers {
    pub(crate) all: Vec<Answers>,
}

impl Model for SiteAnswers {
    ghost use Rattle.std.specs.Prelude.{List};
    ghost use Rattle.td_line.specs.declared.answer.Answer.{Answer};

    ghost Value = { List (List Answer) };

    ghost view = { λ a. a.all.items };
}

impl SiteAnswers {
    pub(crate) fn of(all: Vec<Answers>) -> SiteAnswers
        ensures { result ≡ all.items }
    {
        SiteAnswers { all }
    }

    // Takes out the first.
    pub(crate) fn take_first(&mut self) -> Answers
        requires { 0 < length self.old }
        ensures { self.old ≡ result ∷ self.new }
    {
        self.all.remove(0)
    }
}
