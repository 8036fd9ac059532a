// The parts of lines, each added at the end of what is written so far.
ghost use Rattle.std.specs.Prelude.{◌≡◌, ◌++◌, IfOk, OnOk};
ghost use Rattle.std.specs.Fmt.{decimal};
ghost use Rattle.td_script.specs.Spelling.{dotted, spaced, spaced_bit, spaced_dot};
ghost use Rattle.td_report.specs.Parts.{identity, offset_part, if_any, refusal, spaced_slot};

use itoa::Buffer;
use std::alloc::Global;
use td_base::{AtomId, Bit, Bytes, Dot, Memory, Site};
use td_op::Reply;
use td_path::Slot;

/// The begin of a line: its word and its site.
pub(crate) fn begin(alloc: Global, word: &[u8], site: Site) -> Result<Bytes, Memory>
    ensures { IfOk result (λ line. line ≡ word.now ++ spaced site) }
{
    let mut line = Bytes::new(alloc);
    line.push(word)?;
    push_spaced(&mut line, u64::from(site.number()))?;
    Ok(line)
}

/// A number.
pub(crate) fn push_number(line: &mut Bytes, n: u64) -> Result<(), Memory>
    ensures { OnOk result (line.new ≡ line.old ++ decimal n) }
{
    line.push(Buffer::new().format(n).as_bytes())
}

/// A number behind a space.
pub(crate) fn push_spaced(line: &mut Bytes, n: u64) -> Result<(), Memory>
    ensures { OnOk result (line.new ≡ line.old ++ spaced n) }
{
    line.push(b" ")?;
    push_number(line, n)
}

// A dot.
fn push_dot(line: &mut Bytes, dot: Dot) -> Result<(), Memory>
    ensures { OnOk result (line.new ≡ line.old ++ dotted dot) }
{
    push_number(line, u64::from(dot.site.number()))?;
    line.push(b".")?;
    push_number(line, u64::from(dot.seq))
}

/// A dot behind a space.
pub(crate) fn push_spaced_dot(line: &mut Bytes, dot: Dot) -> Result<(), Memory>
    ensures { OnOk result (line.new ≡ line.old ++ spaced_dot dot) }
{
    line.push(b" ")?;
    push_dot(line, dot)
}

/// The identity of an atom. An offset 0 is not written.
pub(crate) fn push_identity(line: &mut Bytes, id: AtomId) -> Result<(), Memory>
    ensures { OnOk result (line.new ≡ line.old ++ identity id) }
{
    push_dot(line, id.dot)?;
    push_offset(line, id.offset)
}

fn push_offset(line: &mut Bytes, offset: u8) -> Result<(), Memory>
    ensures { OnOk result (line.new ≡ line.old ++ offset_part offset) }
{
    if offset == 0 {
        return Ok(());
    }
    line.push(b"+")?;
    push_number(line, u64::from(offset))
}

/// A slot behind a space.
pub(crate) fn push_slot(line: &mut Bytes, slot: Slot) -> Result<(), Memory>
    ensures { OnOk result (line.new ≡ line.old ++ spaced_slot slot) }
{
    match slot {
        Slot::Root => line.push(b" root"),
        Slot::At { atom, bit } => {
            line.push(b" ")?;
            push_identity(line, atom)?;
            push_bit(line, bit)
        }
    }
}

/// A bit behind a space.
pub(crate) fn push_bit(line: &mut Bytes, bit: Bit) -> Result<(), Memory>
    ensures { OnOk result (line.new ≡ line.old ++ spaced_bit bit) }
{
    match bit {
        Bit::Left => line.push(b" left"),
        Bit::Right => line.push(b" right"),
    }
}

/// Why a request was refused, behind a space; nothing for other replies.
pub(crate) fn push_refusal(line: &mut Bytes, reply: &Reply) -> Result<(), Memory>
    ensures { OnOk result (line.new ≡ line.old ++ refusal reply.now) }
{
    match *reply {
        Reply::Held { by } => {
            line.push(b" held")?;
            push_spaced_dot(line, by)
        }
        Reply::Position { len } => {
            line.push(b" position")?;
            push_spaced(line, u64::from(len))
        }
        Reply::Limit { made, undecided } => {
            line.push(b" limit")?;
            push_spaced(line, u64::from(made))?;
            push_spaced(line, u64::from(undecided))
        }
        _ => Ok(()),
    }
}

/// Why the last request was refused, where one was.
pub(crate) fn push_refusal_of(line: &mut Bytes, refused: &Option<Reply>) -> Result<(), Memory>
    ensures { OnOk result (line.new ≡ line.old ++ if_any refusal refused.now) }
{
    match refused {
        Some(reply) => push_refusal(line, reply),
        None => Ok(()),
    }
}
