use crate::answer::Answer;
use crate::ask::Ask;
use crate::report::Report;
use std::marker::Model;
use td_link::{Rx, Tx};

/// What a worker keeps for one editor. Contracts see a `LineValue`.
#[derive(Drop)]
pub struct Line {
    pub(crate) editor: u32,
    pub(crate) asks: Rx<Ask>,
    pub(crate) answers: Tx<Report>,
    // the request that was taken last, while it is not done
    pub(crate) ask: Option<Ask>,
    // an answer for each request done
    pub(crate) given: Vec<Answer>,
    // the last of them is still to be sent
    pub(crate) owed: bool,
}

impl Model for Line {
    ghost use Rattle.td_line.specs.Lines.{LineValue, IsLine};

    ghost Value = { LineValue };

    ghost view = { λ l. record {
      editor = l.editor;
      asks = l.asks;
      answers = l.answers;
      ask = l.ask;
      given = l.given.items;
      owed = l.owed;
    } };

    ghost invariant = { λ l. IsLine (record {
      editor = l.editor;
      asks = l.asks;
      answers = l.answers;
      ask = l.ask;
      given = l.given.items;
      owed = l.owed;
    }) };
}
