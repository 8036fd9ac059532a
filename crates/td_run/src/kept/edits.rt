// The commands `ins` and `del`: requests one after another, up to the first that is not done.
ghost use Rattle.std.specs.Prelude.{◌≡◌, ◌<◌, ◌≤◌, ◌+◌, ◌^◌, length, IfOk, OnOk};
ghost use Rattle.td_report.specs.Asking.{deletes, inserts};
ghost use Rattle.td_run.specs.KeptAsking.{ask_kept, asked_once, kept_asked};
ghost use Rattle.td_run.specs.KeptPrinting.{kept_del, kept_del_line, kept_ins, kept_ins_line};
ghost use Rattle.td_run.specs.Printing.{and_then};
ghost use Rattle.td_world.specs.World.{size};

use crate::edits::behind;
use crate::kept::outcome::{KeptOutcome, Refusal};
use crate::kept::player::KeptPlayer;
use std::alloc::Global;
use td_base::{Bytes, Memory, Site};
use td_doc::Doc;
use td_journal::KeptFault;
use td_kept::KeptWorld;
use td_op::Request;
use td_report::{del_full_line, del_line, ins_full_line, ins_line, is_made};
use td_text::AtomList;

impl<D: Doc> KeptPlayer<D> {
    /// Inserts each cluster right behind the one before.
    pub(crate) fn insert(&mut self, site: Site, index: u32, atoms: &AtomList) -> Result<(), Memory>
        requires { site ≤ size self.old.world }
        ensures { OnOk result (self.new ≡ and_then self.old (kept_ins site index atoms.now self.old.world)) }
    {
        let before = self.world.sent();
        let all = atoms.len();
        let outcome = insert_all(&mut self.world, site, index, atoms)?;
        let line = insert_line(self.alloc, site, all, outcome)?;
        self.print(&line)?;
        self.print_events(before)
    }

    /// Deletes so many atoms, each where the one before stood.
    pub(crate) fn delete(&mut self, site: Site, index: u32, count: u32) -> Result<(), Memory>
        requires { site ≤ size self.old.world }
        ensures { OnOk result (self.new ≡ and_then self.old (kept_del site index count self.old.world)) }
    {
        let before = self.world.sent();
        let outcome = delete_all(&mut self.world, site, index, count)?;
        let line = delete_line(self.alloc, site, count, outcome)?;
        self.print(&line)?;
        self.print_events(before)
    }
}

fn insert_all<D: Doc>(
    world: &mut KeptWorld<D>,
    site: Site,
    index: u32,
    atoms: &AtomList,
) -> Result<KeptOutcome, Memory>
    requires site { site ≤ size world.old.world }
    requires few { length atoms.now < 2 ^ 32 }
    ensures { IfOk result (λ o. kept_asked world.new.world o
        ≡ ask_kept site (inserts index atoms.now) world.old.world) }
{
    let mut index = index;
    let mut done = 0;
    for atom in atoms.iter() {
        if let Some(refusal) = ask(world, site, Request::Insert { index, atom })? {
            return Ok(KeptOutcome::refused(done, refusal));
        }
        done += 1;
        index = behind(index, 1)?;
    }
    Ok(KeptOutcome::all(done))
}

fn delete_all<D: Doc>(
    world: &mut KeptWorld<D>,
    site: Site,
    index: u32,
    count: u32,
) -> Result<KeptOutcome, Memory>
    requires { site ≤ size world.old.world }
    ensures { IfOk result (λ o. kept_asked world.new.world o
        ≡ ask_kept site (deletes index count) world.old.world) }
{
    for done in 0..count {
        if let Some(refusal) = ask(world, site, Request::Delete { index })? {
            return Ok(KeptOutcome::refused(done, refusal));
        }
    }
    Ok(KeptOutcome::all(count))
}

// One request; why it was not done, if it was not.
fn ask<D: Doc>(
    world: &mut KeptWorld<D>,
    site: Site,
    request: Request,
) -> Result<Option<Refusal>, Memory>
    requires { site ≤ size world.old.world }
    ensures { IfOk result (λ refusal. record { world = world.new.world; refusal = refusal }
        ≡ asked_once site request world.old.world) }
{
    match world.call(site, request) {
        Ok(reply) if is_made(&reply) => Ok(None),
        Ok(reply) => Ok(Some(Refusal::Refused(reply))),
        Err(KeptFault::Full { len }) => Ok(Some(Refusal::Full { len })),
        Err(_) => Err(Memory),
    }
}

fn insert_line(alloc: Global, site: Site, all: u32, outcome: KeptOutcome) -> Result<Bytes, Memory>
    ensures { IfOk result (λ line. line ≡ kept_ins_line site outcome.done all outcome.refusal) }
{
    let KeptOutcome { done, refusal } = outcome;
    match refusal {
        None => ins_line(alloc, site, done, all, None),
        Some(Refusal::Refused(reply)) => ins_line(alloc, site, done, all, Some(reply)),
        Some(Refusal::Full { len }) => ins_full_line(alloc, site, done, all, len),
    }
}

fn delete_line(alloc: Global, site: Site, all: u32, outcome: KeptOutcome) -> Result<Bytes, Memory>
    ensures { IfOk result (λ line. line ≡ kept_del_line site outcome.done all outcome.refusal) }
{
    let KeptOutcome { done, refusal } = outcome;
    match refusal {
        None => del_line(alloc, site, done, all, None),
        Some(Refusal::Refused(reply)) => del_line(alloc, site, done, all, Some(reply)),
        Some(Refusal::Full { len }) => del_full_line(alloc, site, done, all, len),
    }
}
