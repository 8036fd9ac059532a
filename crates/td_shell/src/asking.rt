// Edits: requests one after another, up to the first that is refused.
ghost use Rattle.std.specs.Prelude.{◌≡◌, ◌<◌, ◌+◌, ◌^◌, All, false, length, IfErr, IfOk};
ghost use Rattle.td_base.specs.Atom.{IsAtom};
ghost use Rattle.td_journal.specs.Seen.{is_closed, replica_of};
ghost use Rattle.td_text.specs.Runs.{runs_of};
ghost use Rattle.td_report.specs.Asking.{deletes, inserts, pastes};
ghost use Rattle.td_shell.specs.Asking.{ask_all, edited};
ghost use Rattle.td_shell.specs.Staging.{IsStaged};
ghost use Rattle.td_shell.specs.Wanting.{IsWanting};

use crate::halt::Halt;
use crate::staging::ask;
use td_base::Memory;
use td_disk::Disk;
use td_doc::Doc;
use td_journal::Kept;
use td_op::Request;
use td_report::{Outcome, is_made};
use td_text::{AtomList, runs_of};

/// Inserts each atom right behind the one before.
pub(crate) fn insert_all<D: Doc, K: Disk>(
    kept: &mut Kept<D, K>,
    index: u32,
    atoms: &AtomList,
) -> Result<Outcome, Halt>
    requires open { is_closed kept.old ≡ false }
    requires few { length atoms.now < 2 ^ 32 }
    ensures asked { IfOk result (λ o. edited (replica_of kept.new) o
        ≡ ask_all (inserts index atoms.now) (replica_of kept.old)) }
    ensures staged { IsStaged kept.old kept.new }
    ensures wanting { IfErr result (IsWanting kept.new
        (ask_all (inserts index atoms.now) (replica_of kept.old)).replica) }
{
    let mut index = index;
    let mut done = 0;
    for atom in atoms.iter() {
        let reply = ask(kept, Request::Insert { index, atom })?;
        if !is_made(&reply) {
            return Ok(Outcome::refused(done, reply));
        }
        done += 1;
        index = behind(index, 1)?;
    }
    Ok(Outcome::all(done))
}

/// Pastes the atoms in runs, each right behind the one before.
pub(crate) fn paste_all<D: Doc, K: Disk>(
    kept: &mut Kept<D, K>,
    index: u32,
    atoms: &AtomList,
) -> Result<Outcome, Halt>
    requires open { is_closed kept.old ≡ false }
    requires each { All IsAtom atoms.now }
    requires few { length atoms.now < 2 ^ 32 }
    ensures asked { IfOk result (λ o. edited (replica_of kept.new) o
        ≡ ask_all (pastes index (runs_of atoms.now)) (replica_of kept.old)) }
    ensures staged { IsStaged kept.old kept.new }
    ensures wanting { IfErr result (IsWanting kept.new
        (ask_all (pastes index (runs_of atoms.now)) (replica_of kept.old)).replica) }
{
    let mut index = index;
    let mut done = 0;
    for run in runs_of(atoms) {
        let len = u32::from(run.len());
        let reply = ask(kept, Request::Paste { index, run })?;
        if !is_made(&reply) {
            return Ok(Outcome::refused(done, reply));
        }
        done += len;
        index = behind(index, len)?;
    }
    Ok(Outcome::all(done))
}

/// Deletes so many atoms, each where the one before stood.
pub(crate) fn delete_all<D: Doc, K: Disk>(
    kept: &mut Kept<D, K>,
    index: u32,
    count: u32,
) -> Result<Outcome, Halt>
    requires { is_closed kept.old ≡ false }
    ensures asked { IfOk result (λ o. edited (replica_of kept.new) o
        ≡ ask_all (deletes index count) (replica_of kept.old)) }
    ensures staged { IsStaged kept.old kept.new }
    ensures wanting { IfErr result (IsWanting kept.new
        (ask_all (deletes index count) (replica_of kept.old)).replica) }
{
    for done in 0..count {
        let reply = ask(kept, Request::Delete { index })?;
        if !is_made(&reply) {
            return Ok(Outcome::refused(done, reply));
        }
    }
    Ok(Outcome::all(count))
}

// The index behind so many atoms. A text has fewer than 2^32 of them, so none is put past that.
fn behind(index: u32, count: u32) -> Result<u32, Memory>
    ensures { IfOk result (λ next. next ≡ index + count) }
{
    match index.checked_add(count) {
        Some(next) => Ok(next),
        None => Err(Memory),
    }
}
