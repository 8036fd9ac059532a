ghost use Rattle.std.specs.Prelude.{◌≡◌, ◌≤◌, [], length, drop, IfOk, OnOk};
ghost use Rattle.std.specs.List.{flat_map};
ghost use Rattle.td_base.specs.declared.site.TheConstants.{MAX_SITE};
ghost use Rattle.td_report.specs.Replies.{event_line};
ghost use Rattle.td_run.specs.Printing.{event_at, with_line};
ghost use Rattle.td_world.specs.World.{new_world};

use std::alloc::Global;
use std::marker::Model;
use td_base::{Bytes, Memory};
use td_doc::Doc;
use td_kept::KeptWorld;
use td_report::event_line;

/// A world of kept replicas in which a kept script is played, and what was printed. Contracts see what was printed on
/// the way to its world, where no atom has a mark.
#[derive(Drop)]
pub(crate) struct KeptPlayer<D: Doc> {
    pub(crate) world: KeptWorld<D>,
    pub(crate) text: Bytes,
    pub(crate) alloc: Global,
}

impl<D: Doc> Model for KeptPlayer<D> {
    ghost use Rattle.std.specs.Prelude.{[]};
    ghost use Rattle.td_run.specs.Printing.{Printed};

    ghost Value = { Printed };

    ghost view = { λ p. record { world = p.world.world; marks = []; text = p.text } };
}

impl<D: Doc> KeptPlayer<D> {
    /// So many sites that have done nothing.
    pub(crate) fn new(alloc: Global, sites: u8) -> Result<KeptPlayer<D>, Memory>
        requires some { 1 ≤ sites }
        requires few { sites ≤ MAX_SITE }
        ensures { IfOk result (λ p. p ≡ record { world = new_world sites; marks = []; text = [] }) }
    {
        Ok(KeptPlayer {
            world: KeptWorld::new(alloc, sites)?,
            text: Bytes::new(alloc),
            alloc,
        })
    }

    /// Prints a line.
    pub(crate) fn print(&mut self, line: &Bytes) -> Result<(), Memory>
        ensures { OnOk result (self.new ≡ with_line line.now self.old) }
    {
        self.text.push(line.as_slice())
    }

    /// Prints the votes and decisions among the messages behind so many.
    pub(crate) fn print_events(&mut self, before: u64) -> Result<(), Memory>
        ensures { OnOk result (self.new ≡ with_line (flat_map event_line (drop before self.old.world.sent)) self.old) }
    {
        for number in before..self.world.sent() {
            self.print_event(number + 1)?;
        }
        Ok(())
    }

    // Prints the message with this number, where it is a vote or a decision.
    fn print_event(&mut self, number: u64) -> Result<(), Memory>
        ensures { OnOk result (self.new ≡ with_line (event_at number self.old.world) self.old) }
    {
        let Some((_, message)) = self.world.message(number) else {
            return Ok(());
        };
        let line = event_line(self.alloc, &message)?;
        self.print(&line)
    }
}
