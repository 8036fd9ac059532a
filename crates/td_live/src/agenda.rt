ghost use Rattle.std.specs.Prelude.{◌≡◌, ◌≢◌, ◌<◌, ◌≤◌, ◌∷◌, List, [], length, MatchOption};
ghost use Rattle.td_script.specs.declared.live.editor_line.EditorLine.{EditorLine};
ghost use Rattle.td_script.specs.declared.live.editor_line.EditorLine.TheVariants as Line;
ghost use Rattle.td_live.specs.declared.ask.Ask.{Ask};
ghost use Rattle.td_live.specs.declared.next.Next.TheVariants as What;
ghost use Rattle.td_live.specs.Agenda.{IsNextToDo, IsToBegin};
ghost use Rattle.td_live.specs.Asking.{asks_of};
ghost use Rattle.td_live.specs.Following.{Act, Leads, Rest, all_of, calls_left, replied};

use crate::line_calls::LineCalls;
use crate::next::Next;
use std::marker::Model;
use td_base::Dot;
use td_op::Reply;
use td_script::{EditorLine, EditorLines};

/// What an editor has still to do of its lines. Contracts see a `Rest`.
#[derive(Debug, Drop)]
pub struct Agenda {
    // the calls that are left of the line at which the editor is
    calls: LineCalls,
    // the operation made last
    made: Option<Dot>,
    // the other lines, the last one first
    lines: Vec<EditorLine>,
}

impl Model for Agenda {
    ghost use Rattle.std.specs.Prelude.{reverse};
    ghost use Rattle.td_live.specs.Following.{Rest};

    ghost Value = { Rest };

    ghost view = { λ a. record { asks = a.calls; made = a.made; lines = reverse a.lines.items } };
}

impl Agenda {
    /// All these lines. Takes no memory.
    pub fn new(lines: EditorLines) -> Agenda
        ensures { result ≡ all_of lines }
    {
        let mut lines = lines.into_vec();
        lines.reverse();
        Agenda {
            calls: LineCalls::none(),
            made: None,
            lines,
        }
    }

    /// What is to do next: where no call is left of a line, the next line is begun. Takes no memory.
    pub fn next(&mut self) -> Next
        ensures next { IsNextToDo result self.new }
        ensures leads { (first : Rest) (acts : List Act) → Leads first acts self.old → Leads first acts self.new }
        ensures calls { calls_left self.new ≤ calls_left self.old }
        ensures same { self.old.asks ≢ [] → self.new ≡ self.old }
    {
        loop {
            if let Some(next) = self.at_hand() {
                return next;
            }
            self.begin();
        }
    }

    // What is next, where no line has to begin first.
    fn at_hand(&self) -> Option<Next>
        ensures { MatchOption result (IsToBegin self.now) (λ next. IsNextToDo next self.now) }
    {
        if let Some(ask) = self.calls.first() {
            return Some(Next::Ask(ask.request(self.made)));
        }
        let Some(line) = self.lines.last() else {
            return Some(Next::Over);
        };
        match line {
            EditorLine::Look => Some(Next::Look),
            _ => None,
        }
    }

    // Begins the next line.
    fn begin(&mut self)
        requires { IsToBegin self.old }
        ensures begun { (line : EditorLine) (lines : List EditorLine) → self.old.lines ≡ line ∷ lines
            → self.new ≡ record self.old { asks = asks_of line; lines = lines } }
        ensures calls { calls_left self.new ≤ calls_left self.old }
    {
        if let Some(line) = self.lines.pop() {
            self.calls = LineCalls::of(line);
        }
    }

    /// The call that was next got this reply. Takes no memory.
    pub fn replied(&mut self, reply: &Reply)
        requires { 0 < length self.old.asks }
        ensures { (ask : Ask) (asks : List Ask) → self.old.asks ≡ ask ∷ asks
            → self.new ≡ replied reply.now self.old asks }
    {
        match reply {
            Reply::Made { dot } => {
                self.made = Some(*dot);
                self.calls.pass();
            }
            _ => self.calls.end(),
        }
    }

    /// The look that was next was done. Takes no memory.
    pub fn looked(&mut self)
        requires { IsNextToDo What.Look self.old }
        ensures { (lines : List EditorLine) → self.old.lines ≡ Line.Look ∷ lines
            → self.new ≡ record self.old { lines = lines } }
    {
        self.lines.pop();
    }
}
