// The commands `ins`, `paste` and `del`: requests one after another, up to the first that is refused. What is sent by
// them are no votes and no decisions, so no event follows their line.
ghost use Rattle.std.specs.Prelude.{◌≡◌, ◌<◌, ◌≤◌, ◌+◌, ◌^◌, All, length, IfOk, OnOk};
ghost use Rattle.td_base.specs.Atom.{IsAtom};
ghost use Rattle.td_report.specs.Asking.{deletes, inserts, pastes};
ghost use Rattle.td_run.specs.Asking.{ask_all, asked};
ghost use Rattle.td_run.specs.Printing.{and_then, del, ins, paste};
ghost use Rattle.td_text.specs.Runs.{runs_of};
ghost use Rattle.td_world.specs.World.{size};

use crate::player::Player;
use td_base::{Memory, Site};
use td_doc::Doc;
use td_op::Request;
use td_report::{Outcome, del_line, ins_line, is_made, paste_line};
use td_text::{AtomList, runs_of};
use td_world::World;

impl<D: Doc> Player<D> {
    /// Inserts each cluster right behind the one before.
    pub(crate) fn insert(&mut self, site: Site, index: u32, atoms: &AtomList) -> Result<(), Memory>
        requires { site ≤ size self.old.world }
        ensures { OnOk result (self.new ≡ and_then self.old (ins site index atoms.now self.old.world)) }
    {
        let all = atoms.len();
        let outcome = insert_all(&mut self.world, site, index, atoms)?;
        let line = ins_line(self.alloc, site, outcome.done, all, outcome.refused)?;
        self.print(&line)?;
        Ok(())
    }

    /// Pastes the clusters in runs, each right behind the one before.
    pub(crate) fn paste(&mut self, site: Site, index: u32, atoms: &AtomList) -> Result<(), Memory>
        requires site { site ≤ size self.old.world }
        requires each { All IsAtom atoms.now }
        ensures { OnOk result (self.new ≡ and_then self.old (paste site index atoms.now self.old.world)) }
    {
        let all = atoms.len();
        let outcome = paste_all(&mut self.world, site, index, atoms)?;
        let line = paste_line(self.alloc, site, outcome.done, all, outcome.refused)?;
        self.print(&line)?;
        Ok(())
    }

    /// Deletes so many atoms, each where the one before stood.
    pub(crate) fn delete(&mut self, site: Site, index: u32, count: u32) -> Result<(), Memory>
        requires { site ≤ size self.old.world }
        ensures { OnOk result (self.new ≡ and_then self.old (del site index count self.old.world)) }
    {
        let outcome = delete_all(&mut self.world, site, index, count)?;
        let line = del_line(self.alloc, site, outcome.done, count, outcome.refused)?;
        self.print(&line)?;
        Ok(())
    }
}

fn insert_all<D: Doc>(
    world: &mut World<D>,
    site: Site,
    index: u32,
    atoms: &AtomList,
) -> Result<Outcome, Memory>
    requires site { site ≤ size world.old }
    requires few { length atoms.now < 2 ^ 32 }
    ensures { IfOk result (λ o. asked world.new o ≡ ask_all site (inserts index atoms.now) world.old) }
{
    let mut index = index;
    let mut done = 0;
    for atom in atoms.iter() {
        let reply = world.call(site, Request::Insert { index, atom })?;
        if !is_made(&reply) {
            return Ok(Outcome::refused(done, reply));
        }
        done += 1;
        index = behind(index, 1)?;
    }
    Ok(Outcome::all(done))
}

fn paste_all<D: Doc>(
    world: &mut World<D>,
    site: Site,
    index: u32,
    atoms: &AtomList,
) -> Result<Outcome, Memory>
    requires site { site ≤ size world.old }
    requires each { All IsAtom atoms.now }
    requires few { length atoms.now < 2 ^ 32 }
    ensures { IfOk result (λ o. asked world.new o ≡ ask_all site (pastes index (runs_of atoms.now)) world.old) }
{
    let mut index = index;
    let mut done = 0;
    for run in runs_of(atoms) {
        let len = u32::from(run.len());
        let reply = world.call(site, Request::Paste { index, run })?;
        if !is_made(&reply) {
            return Ok(Outcome::refused(done, reply));
        }
        done += len;
        index = behind(index, len)?;
    }
    Ok(Outcome::all(done))
}

#[tactic(auto, using(crate::proofs::NextEdits::next_delete))]
fn delete_all<D: Doc>(
    world: &mut World<D>,
    site: Site,
    index: u32,
    count: u32,
) -> Result<Outcome, Memory>
    requires { site ≤ size world.old }
    ensures { IfOk result (λ o. asked world.new o ≡ ask_all site (deletes index count) world.old) }
{
    for done in 0..count {
        let reply = world.call(site, Request::Delete { index })?;
        if !is_made(&reply) {
            return Ok(Outcome::refused(done, reply));
        }
    }
    Ok(Outcome::all(count))
}

// The index behind so many atoms. A text has fewer than 2^32 of them, so none is put past that.
pub(crate) fn behind(index: u32, count: u32) -> Result<u32, Memory>
    ensures { IfOk result (λ next. next ≡ index + count) }
{
    match index.checked_add(count) {
        Some(next) => Ok(next),
        None => Err(Memory),
    }
}
