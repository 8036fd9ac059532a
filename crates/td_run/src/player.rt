ghost use Rattle.std.specs.Prelude.{◌≡◌, ◌≤◌, ◌++◌, [], length, drop, IfOk, OnErr, OnOk};
ghost use Rattle.std.specs.Io.KnownBytes.{Appends};
ghost use Rattle.std.specs.List.{flat_map};
ghost use Rattle.td_base.specs.declared.site.TheConstants.{MAX_SITE};
ghost use Rattle.td_io.specs.Count.{Rose};
ghost use Rattle.td_report.specs.Replies.{event_line};
ghost use Rattle.td_run.specs.Answer.{PutsFront};
ghost use Rattle.td_run.specs.Outputs.{PutsOut};
ghost use Rattle.td_run.specs.Printing.{event_at, start_of, with_line, with_text};

use crate::marking::new_marks;
use std::alloc::Global;
use std::marker::Model;
use td_base::{Bytes, Memory};
use td_doc::Doc;
use td_io::{Failed, Sink, put_all};
use td_marks::Marks;
use td_report::event_line;
use td_world::World;

// So many bytes are gathered before they are put.
const PIECE: usize = 65_536;

/// A world in which a script is played, the marks of its sites, and what was printed and not yet put.
#[derive(Drop)]
pub(crate) struct Player<D: Doc> {
    pub(crate) world: World<D>,
    // of site s at place s - 1
    pub(crate) marks: Vec<Marks>,
    pub(crate) text: Bytes,
    pub(crate) alloc: Global,
}

impl<D: Doc> Model for Player<D> {
    ghost use Rattle.td_run.specs.Printing.{Printed};

    ghost Value = { Printed };

    ghost view = { λ p. record { world = p.world; marks = p.marks.items; text = p.text } };
}

impl<D: Doc> Player<D> {
    /// So many sites that have done nothing.
    pub(crate) fn new(alloc: Global, sites: u8) -> Result<Player<D>, Memory>
        requires some { 1 ≤ sites }
        requires few { sites ≤ MAX_SITE }
        ensures { IfOk result (λ p. p ≡ start_of sites) }
    {
        Ok(Player {
            world: World::new(alloc, sites)?,
            marks: new_marks(alloc, sites)?,
            text: Bytes::new(alloc),
            alloc,
        })
    }

    /// Prints a line.
    pub(crate) fn print(&mut self, line: &Bytes) -> Result<(), Memory>
        ensures { OnOk result (self.new ≡ with_line line.now self.old) }
    {
        self.text.push(line.as_slice())
    }

    /// Prints the votes and decisions among the messages behind so many.
    pub(crate) fn print_events(&mut self, before: u64) -> Result<(), Memory>
        ensures { OnOk result (self.new ≡ with_line (flat_map event_line (drop before self.old.world.sent)) self.old) }
    {
        for number in before..self.world.sent() {
            self.print_event(number + 1)?;
        }
        Ok(())
    }

    // Prints the message with this number, where it is a vote or a decision.
    fn print_event(&mut self, number: u64) -> Result<(), Memory>
        ensures { OnOk result (self.new ≡ with_line (event_at number self.old.world) self.old) }
    {
        let Some((_, message)) = self.world.message(number) else {
            return Ok(());
        };
        let line = event_line(self.alloc, &message)?;
        self.print(&line)
    }

    /// Puts what was printed, where it is enough for a piece.
    pub(crate) fn put_piece<K: Sink>(&mut self, sink: &mut K) -> Result<(), Failed>
        ensures ok { OnOk result (PutsOut (K.held sink.old) (K.held sink.new) self.old self.new) }
        ensures part { OnErr result (PutsFront (K.held sink.old) (K.held sink.new) self.old.text) }
        ensures failed { OnErr result (Rose (K.faults sink.old) (K.faults sink.new)) }
        ensures count { K.faults sink.old ≤ K.faults sink.new }
    {
        if self.text.as_slice().len() < PIECE {
            return Ok(());
        }
        self.put_rest(sink)
    }

    /// Puts what was printed and not yet put.
    pub(crate) fn put_rest<K: Sink>(&mut self, sink: &mut K) -> Result<(), Failed>
        ensures ok { OnOk result (Appends (K.held sink.old) (K.held sink.new) self.old.text) }
        ensures new { OnOk result (self.new ≡ with_text [] self.old) }
        ensures part { OnErr result (PutsFront (K.held sink.old) (K.held sink.new) self.old.text) }
        ensures failed { OnErr result (Rose (K.faults sink.old) (K.faults sink.new)) }
        ensures count { K.faults sink.old ≤ K.faults sink.new }
    {
        put_all(sink, self.text.as_slice())?;
        self.text.truncate(0);
        Ok(())
    }
}
