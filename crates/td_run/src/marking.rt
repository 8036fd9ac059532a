// The commands on marks: `mark`, `unmark`, `meet` and `marks`.
ghost use Rattle.std.specs.Prelude.{◌≡◌, ◌<◌, ◌≤◌, length, IfOk, OnOk};
ghost use Rattle.td_base.specs.declared.site.TheConstants.{MAX_SITE};
ghost use Rattle.td_marks.specs.declared.mark_op.TheConstants.{NAMES};
ghost use Rattle.td_report.specs.Marks.{meet_line};
ghost use Rattle.td_run.specs.Marking.{mark, marked, marked_lines, meet, new_marks, refusal_at};
ghost use Rattle.td_run.specs.Printing.{and_marked, with_line};
ghost use Rattle.td_world.specs.World.{machine_of, size};

use crate::player::Player;
use std::alloc::Global;
use std::mem;
use td_base::{Memory, Site};
use td_doc::Doc;
use td_marks::{MarkFault, Marks, marked_text};
use td_report::{mark_line, marks_lines, meet_line};

impl<D: Doc> Player<D> {
    /// Adds a name to so many live atoms of a site from an index on, or removes it from them.
    pub(crate) fn mark(
        &mut self,
        site: Site,
        add: bool,
        name: u8,
        index: u32,
        count: u32,
    ) -> Result<(), Memory>
        requires site { site ≤ size self.old.world }
        requires marks { site ≤ length self.old.marks }
        requires name { name < NAMES }
        ensures { OnOk result (self.new ≡ and_marked self.old
            (mark site add name index count (machine_of self.old.world site).doc self.old.marks)) }
    {
        let doc = self.world.replica(site).doc();
        let marks = &mut self.marks[site.place()];
        let refusal = mark_unless_refused(marks, doc, add, name, index, count)?;
        let line = mark_line(self.alloc, site, add, count, refusal)?;
        self.print(&line)
    }

    /// Gives a site all operations on marks that another one has.
    pub(crate) fn meet(&mut self, site: Site, other: Site) -> Result<(), Memory>
        requires site { site ≤ length self.old.marks }
        requires other { other ≤ length self.old.marks }
        ensures { OnOk result (self.new ≡ and_marked self.old (meet site other self.old.marks)) }
    {
        let new = meet_at(self.alloc, &mut self.marks, site, other)?;
        let line = meet_line(self.alloc, site, other, new)?;
        self.print(&line)
    }

    /// Prints the marked text of a site.
    pub(crate) fn marks(&mut self, site: Site) -> Result<(), Memory>
        requires site { site ≤ size self.old.world }
        requires marks { site ≤ length self.old.marks }
        ensures { OnOk result (self.new
            ≡ with_line (marked_lines site (machine_of self.old.world site).doc self.old.marks) self.old) }
    {
        let replica = self.world.replica(site);
        // tells that its history is legal, so that its document obeys the rules of one
        replica.entries();
        let pieces = marked_text(self.alloc, &self.marks[site.place()], replica.doc())?;
        let lines = marks_lines(self.alloc, site, &pieces)?;
        self.print(&lines)
    }
}

/// The marks of so many sites that have made none.
pub(crate) fn new_marks(alloc: Global, sites: u8) -> Result<Vec<Marks>, Memory>
    requires { sites ≤ MAX_SITE }
    ensures { IfOk result (λ all. all.items ≡ new_marks sites) }
{
    let mut all = Vec::new(alloc);
    for place in 0..sites {
        all.push(Marks::new(alloc, Site::at(place), sites))?;
    }
    Ok(all)
}

// Makes an operation, or answers why none is made.
fn mark_unless_refused<D: Doc>(
    marks: &mut Marks,
    doc: &D,
    add: bool,
    name: u8,
    index: u32,
    count: u32,
) -> Result<Option<MarkFault>, Memory>
    requires { name < NAMES }
    ensures refusal { IfOk result (λ refusal. refusal ≡ refusal_at index count (D.rows doc.now) marks.old) }
    ensures marks { OnOk result (marks.new ≡ marked add name index count (D.rows doc.now) marks.old) }
{
    match marks.mark(doc, add, name, index, count) {
        Ok(_) => Ok(None),
        Err(MarkFault::Memory) => Err(Memory),
        Err(fault) => Ok(Some(fault)),
    }
}

// Gives one site all operations of the other, and answers how many were new.
fn meet_at(alloc: Global, all: &mut [Marks], site: Site, other: Site) -> Result<u32, Memory>
    requires site { site ≤ length all.old }
    requires other { other ≤ length all.old }
    ensures marks { OnOk result (all.new ≡ (meet site other all.old).marks) }
    ensures new { IfOk result (λ new. meet_line site other new ≡ (meet site other all.old).line) }
{
    if site == other {
        // tells that it has all of its own operations
        all[site.place()].ops();
        return Ok(0);
    }
    let nobody = Marks::new(alloc, site, site.number());
    let mut marks = mem::replace(&mut all[site.place()], nobody);
    let new = marks.meet(&all[other.place()]);
    all[site.place()] = marks;
    Ok(new?)
}
