ghost use Rattle.std.specs.Prelude.{◌≡◌, ◌++◌, IfOk, OnOk, slice_get};
ghost use Rattle.std.specs.List.{flat_map};
ghost use Rattle.td_doc.specs.Document.{IsDocument, live_atoms};
ghost use Rattle.td_script.specs.Texts.{escaped};
ghost use Rattle.td_report.specs.Parts.{if_any};
ghost use Rattle.td_report.specs.Numbers.{head_line, site_line, summary_head, summary_lines};

use crate::count::push_live_and_rows;
use crate::parts::{begin, push_spaced};
use crate::show::push_escaped;
use std::alloc::Global;
use td_base::{Bytes, Memory};
use td_doc::Doc;
use td_replica::Replica;

/// How many atoms the summary shows.
pub(crate) const HEAD_LEN: u32 = 32;

/// The summary of a generated script of a size and a number with so many commands, where these are the replicas of
/// its sites after all commands: what each has, and the text of the first 32 live atoms of the first, or of all where
/// there are fewer.
pub fn summary_lines<D: Doc>(
    alloc: Global,
    size: u32,
    number: u64,
    commands: u32,
    one: &Replica<D>,
    two: &Replica<D>,
    three: &Replica<D>,
) -> Result<Bytes, Memory>
    ensures { IfOk result (λ lines.
        lines ≡ summary_lines size number commands one.now.machine two.now.machine three.now.machine) }
{
    let mut lines = Bytes::new(alloc);
    // tells that the replica has a legal history, so that its document obeys the rules of one
    one.entries();
    push_summary_head(&mut lines, size, number, commands)?;
    push_site(alloc, &mut lines, one)?;
    push_site(alloc, &mut lines, two)?;
    push_site(alloc, &mut lines, three)?;
    push_head(&mut lines, one.doc())?;
    Ok(lines)
}

// The line of the size and the number, and that of the commands.
fn push_summary_head(lines: &mut Bytes, size: u32, number: u64, commands: u32) -> Result<(), Memory>
    ensures { OnOk result (lines.new ≡ lines.old ++ summary_head size number commands) }
{
    lines.push(b"gen")?;
    push_spaced(lines, u64::from(size))?;
    push_spaced(lines, number)?;
    lines.push(b"\ncommands")?;
    push_spaced(lines, u64::from(commands))?;
    lines.push(b"\n")
}

// What a site has.
fn push_site<D: Doc>(alloc: Global, lines: &mut Bytes, replica: &Replica<D>) -> Result<(), Memory>
    ensures { OnOk result (lines.new ≡ lines.old ++ site_line replica.now.machine) }
{
    let mut line = begin(alloc, b"site", replica.site())?;
    push_live_and_rows(&mut line, replica.doc())?;
    line.push(b" made")?;
    push_spaced(&mut line, u64::from(replica.made()))?;
    line.push(b"\n")?;
    lines.push(line.as_slice())
}

// The text of the first live atoms.
fn push_head<D: Doc>(lines: &mut Bytes, doc: &D) -> Result<(), Memory>
    requires { IsDocument (D.rows doc.now) }
    ensures { OnOk result (lines.new ≡ lines.old ++ head_line (live_atoms (D.rows doc.now))) }
{
    lines.push(b"head \"")?;
    for index in 0..HEAD_LEN {
        push_atom(lines, doc, index)?;
    }
    lines.push(b"\"\n")
}

// The live atom at the index, where there is one.
fn push_atom<D: Doc>(lines: &mut Bytes, doc: &D, index: u32) -> Result<(), Memory>
    requires { IsDocument (D.rows doc.now) }
    ensures { OnOk result (lines.new
        ≡ lines.old ++ if_any (flat_map escaped) (slice_get (live_atoms (D.rows doc.now)) index)) }
{
    let Some(id) = doc.live_at(index) else {
        return Ok(());
    };
    let Some(row) = doc.find(id) else {
        unreachable!()
    };
    push_escaped(lines, row.atom.bytes())
}
