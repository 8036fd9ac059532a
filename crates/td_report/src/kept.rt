ghost use Rattle.std.specs.Prelude.{◌≡◌, ◌++◌, IfOk, OnOk};
ghost use Rattle.td_report.specs.Kept.{cancel_full_line, crash_full_line, crash_line, del_full_line, edit_full_line};
ghost use Rattle.td_report.specs.Kept.{flat_full_line, full, give_full_line, ins_full_line};

use crate::edits::begin_edit;
use crate::parts::{begin, push_spaced, push_spaced_dot};
use std::alloc::Global;
use td_base::{Bytes, Dot, Memory, Site};

/// `crash R E`: the site has so many entries when it is opened again.
pub fn crash_line(alloc: Global, site: Site, entries: u64) -> Result<Bytes, Memory>
    ensures { IfOk result (λ line. line ≡ crash_line site entries) }
{
    let mut line = begin(alloc, b"crash", site)?;
    push_spaced(&mut line, entries)?;
    line.push(b"\n")?;
    Ok(line)
}

/// `crash R full LEN`: the disk has no room for the request behind so many bytes.
pub fn crash_full_line(alloc: Global, site: Site, len: u32) -> Result<Bytes, Memory>
    ensures { IfOk result (λ line. line ≡ crash_full_line site len) }
{
    let mut line = begin(alloc, b"crash", site)?;
    push_full(&mut line, len)?;
    line.push(b"\n")?;
    Ok(line)
}

/// `give R M full LEN`: the disk has no room for the message, or for what waited for it, behind so many bytes.
pub fn give_full_line(alloc: Global, site: Site, number: u64, len: u32) -> Result<Bytes, Memory>
    ensures { IfOk result (λ line. line ≡ give_full_line site number len) }
{
    let mut line = begin(alloc, b"give", site)?;
    push_spaced(&mut line, number)?;
    push_full(&mut line, len)?;
    line.push(b"\n")?;
    Ok(line)
}

/// `flat R full LEN`: the disk has no room for the proposal behind so many bytes.
pub fn flat_full_line(alloc: Global, site: Site, len: u32) -> Result<Bytes, Memory>
    ensures { IfOk result (λ line. line ≡ flat_full_line site len) }
{
    let mut line = begin(alloc, b"flat", site)?;
    push_full(&mut line, len)?;
    line.push(b"\n")?;
    Ok(line)
}

/// `cancel R S.Q full LEN`: the disk has no room for the request behind so many bytes.
pub fn cancel_full_line(alloc: Global, site: Site, proposal: Dot, len: u32) -> Result<Bytes, Memory>
    ensures { IfOk result (λ line. line ≡ cancel_full_line site proposal len) }
{
    let mut line = begin(alloc, b"cancel", site)?;
    push_spaced_dot(&mut line, proposal)?;
    push_full(&mut line, len)?;
    line.push(b"\n")?;
    Ok(line)
}

/// `ins R A/B full LEN`: so many of so many clusters were inserted, and the disk has no room for the next.
pub fn ins_full_line(
    alloc: Global,
    site: Site,
    done: u32,
    all: u32,
    len: u32,
) -> Result<Bytes, Memory>
    ensures { IfOk result (λ line. line ≡ ins_full_line site done all len) }
{
    edit_full_line(alloc, b"ins", site, done, all, len)
}

/// `del R A/K full LEN`: so many of so many deletes were made, and the disk has no room for the next.
pub fn del_full_line(
    alloc: Global,
    site: Site,
    done: u32,
    all: u32,
    len: u32,
) -> Result<Bytes, Memory>
    ensures { IfOk result (λ line. line ≡ del_full_line site done all len) }
{
    edit_full_line(alloc, b"del", site, done, all, len)
}

fn edit_full_line(
    alloc: Global,
    word: &[u8],
    site: Site,
    done: u32,
    all: u32,
    len: u32,
) -> Result<Bytes, Memory>
    ensures { IfOk result (λ line. line ≡ edit_full_line word.now site done all len) }
{
    let mut line = begin_edit(alloc, word, site, done, all)?;
    push_full(&mut line, len)?;
    line.push(b"\n")?;
    Ok(line)
}

// That the disk is full behind so many bytes.
fn push_full(line: &mut Bytes, len: u32) -> Result<(), Memory>
    ensures { OnOk result (line.new ≡ line.old ++ full len) }
{
    line.push(b" full")?;
    push_spaced(line, u64::from(len))
}
