// What each command does and what it prints of that. The steps are staged.
ghost use Rattle.std.specs.Prelude.{◌≡◌, All, false, IfErr, IfOk, OnOk};
ghost use Rattle.td_base.specs.Atom.{IsAtom};
ghost use Rattle.td_idle.specs.Best.{best_slot};
ghost use Rattle.td_journal.specs.Seen.{is_closed, replica_of};
ghost use Rattle.td_script.specs.ShellFaults.{IsFitToPaste};
ghost use Rattle.td_report.specs.Asking.{proposal};
ghost use Rattle.td_shell.specs.Answers.{cancel, del, flat_slot, ins, paste, proposed_by, replied};
ghost use Rattle.td_shell.specs.Staging.{IsStaged};
ghost use Rattle.td_shell.specs.Wanting.{IsWanting};

use crate::asking::{delete_all, insert_all, paste_all};
use crate::halt::Halt;
use crate::showing::{rows, sent_from, shown};
use crate::staging::ask;
use crate::taking::receive;
use std::alloc::Global;
use td_base::{Bytes, Dot};
use td_disk::Disk;
use td_doc::Doc;
use td_idle::best;
use td_journal::Kept;
use td_op::Request;
use td_report::{
    cancel_line, count_line, del_line, flat_line, flat_none_line, ins_line, paste_line, proposal,
};
use td_script::ShellCommand;
use td_text::AtomList;

/// Does the steps of a command, and answers the line of its reply.
pub(crate) fn reply<D: Doc, K: Disk>(
    alloc: Global,
    kept: &mut Kept<D, K>,
    command: &ShellCommand,
) -> Result<Bytes, Halt>
    requires open { is_closed kept.old ≡ false }
    requires fit { IsFitToPaste command.now }
    ensures text { IfOk result (λ text. text ≡ (replied command.now (replica_of kept.old)).text) }
    ensures ok { OnOk result (replica_of kept.new ≡ (replied command.now (replica_of kept.old)).replica) }
    ensures staged { IsStaged kept.old kept.new }
    ensures wanting { IfErr result (IsWanting kept.new
        (replied command.now (replica_of kept.old)).replica) }
{
    match command {
        ShellCommand::Ins { index, atoms } => insert(alloc, kept, *index, atoms),
        ShellCommand::Paste { index, atoms } => paste(alloc, kept, *index, atoms),
        ShellCommand::Del { index, count } => delete(alloc, kept, *index, *count),
        ShellCommand::Flat { place } => propose(alloc, kept, proposal(*place)),
        ShellCommand::FlatAuto => propose_best(alloc, kept),
        ShellCommand::Cancel { proposal } => cancel(alloc, kept, *proposal),
        ShellCommand::Take { packet } => receive(alloc, kept, packet.as_slice()),
        ShellCommand::Send { from } => Ok(sent_from(alloc, kept.replica(), *from)?),
        ShellCommand::Show => Ok(shown(alloc, kept.replica())?),
        ShellCommand::Tree => Ok(rows(alloc, kept.replica())?),
        ShellCommand::Count => Ok(count_line(alloc, kept.replica())?),
    }
}

fn insert<D: Doc, K: Disk>(
    alloc: Global,
    kept: &mut Kept<D, K>,
    index: u32,
    atoms: &AtomList,
) -> Result<Bytes, Halt>
    requires { is_closed kept.old ≡ false }
    ensures text { IfOk result (λ text. text ≡ (ins index atoms.now (replica_of kept.old)).text) }
    ensures ok { OnOk result (replica_of kept.new ≡ (ins index atoms.now (replica_of kept.old)).replica) }
    ensures staged { IsStaged kept.old kept.new }
    ensures wanting { IfErr result (IsWanting kept.new
        (ins index atoms.now (replica_of kept.old)).replica) }
{
    let site = kept.replica().site();
    let all = atoms.len();
    let outcome = insert_all(kept, index, atoms)?;
    Ok(ins_line(alloc, site, outcome.done, all, outcome.refused)?)
}

fn paste<D: Doc, K: Disk>(
    alloc: Global,
    kept: &mut Kept<D, K>,
    index: u32,
    atoms: &AtomList,
) -> Result<Bytes, Halt>
    requires open { is_closed kept.old ≡ false }
    requires each { All IsAtom atoms.now }
    ensures text { IfOk result (λ text. text ≡ (paste index atoms.now (replica_of kept.old)).text) }
    ensures ok { OnOk result (replica_of kept.new ≡ (paste index atoms.now (replica_of kept.old)).replica) }
    ensures staged { IsStaged kept.old kept.new }
    ensures wanting { IfErr result (IsWanting kept.new
        (paste index atoms.now (replica_of kept.old)).replica) }
{
    let site = kept.replica().site();
    let all = atoms.len();
    let outcome = paste_all(kept, index, atoms)?;
    Ok(paste_line(alloc, site, outcome.done, all, outcome.refused)?)
}

fn delete<D: Doc, K: Disk>(
    alloc: Global,
    kept: &mut Kept<D, K>,
    index: u32,
    count: u32,
) -> Result<Bytes, Halt>
    requires { is_closed kept.old ≡ false }
    ensures text { IfOk result (λ text. text ≡ (del index count (replica_of kept.old)).text) }
    ensures ok { OnOk result (replica_of kept.new ≡ (del index count (replica_of kept.old)).replica) }
    ensures staged { IsStaged kept.old kept.new }
    ensures wanting { IfErr result (IsWanting kept.new
        (del index count (replica_of kept.old)).replica) }
{
    let site = kept.replica().site();
    let outcome = delete_all(kept, index, count)?;
    Ok(del_line(alloc, site, outcome.done, count, outcome.refused)?)
}

fn propose<D: Doc, K: Disk>(
    alloc: Global,
    kept: &mut Kept<D, K>,
    request: Request,
) -> Result<Bytes, Halt>
    requires { is_closed kept.old ≡ false }
    ensures text { IfOk result (λ text. text ≡ (proposed_by request (replica_of kept.old)).text) }
    ensures ok { OnOk result (replica_of kept.new ≡ (proposed_by request (replica_of kept.old)).replica) }
    ensures staged { IsStaged kept.old kept.new }
    ensures wanting { IfErr result (IsWanting kept.new
        (proposed_by request (replica_of kept.old)).replica) }
{
    let site = kept.replica().site();
    let reply = ask(kept, request)?;
    Ok(flat_line(alloc, site, reply)?)
}

// Proposes to flatten the largest part of which every site is known to have everything.
fn propose_best<D: Doc, K: Disk>(alloc: Global, kept: &mut Kept<D, K>) -> Result<Bytes, Halt>
    requires { is_closed kept.old ≡ false }
    ensures text { IfOk result (λ text. text
        ≡ (flat_slot (best_slot (replica_of kept.old).machine) (replica_of kept.old)).text) }
    ensures ok { OnOk result (replica_of kept.new
        ≡ (flat_slot (best_slot (replica_of kept.old).machine) (replica_of kept.old)).replica) }
    ensures staged { IsStaged kept.old kept.new }
    ensures wanting { IfErr result (IsWanting kept.new
        (flat_slot (best_slot (replica_of kept.old).machine) (replica_of kept.old)).replica) }
{
    match best(alloc, kept.replica())? {
        Some(idle) => propose(alloc, kept, Request::Propose { slot: idle.slot }),
        None => Ok(flat_none_line(alloc, kept.replica().site())?),
    }
}

fn cancel<D: Doc, K: Disk>(
    alloc: Global,
    kept: &mut Kept<D, K>,
    proposal: Dot,
) -> Result<Bytes, Halt>
    requires { is_closed kept.old ≡ false }
    ensures text { IfOk result (λ text. text ≡ (cancel proposal (replica_of kept.old)).text) }
    ensures ok { OnOk result (replica_of kept.new ≡ (cancel proposal (replica_of kept.old)).replica) }
    ensures staged { IsStaged kept.old kept.new }
    ensures wanting { IfErr result (IsWanting kept.new
        (cancel proposal (replica_of kept.old)).replica) }
{
    let site = kept.replica().site();
    let reply = ask(kept, Request::Cancel { proposal })?;
    Ok(cancel_line(alloc, site, proposal, reply)?)
}
