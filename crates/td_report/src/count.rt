ghost use Rattle.std.specs.Prelude.{◌≡◌, ◌++◌, IfOk, OnOk};
ghost use Rattle.td_report.specs.Numbers.{count_line, live_and_rows};

use crate::parts::{begin, push_spaced};
use std::alloc::Global;
use td_base::{Bytes, Memory};
use td_doc::Doc;
use td_replica::Replica;

/// `count R live L rows W waiting Q holds H`: the live atoms, the rows, the operations that wait for others, and the
/// proposals that are held.
pub fn count_line<D: Doc>(alloc: Global, replica: &Replica<D>) -> Result<Bytes, Memory>
    ensures { IfOk result (λ line. line ≡ count_line replica.now.machine) }
{
    let mut line = begin(alloc, b"count", replica.site())?;
    push_live_and_rows(&mut line, replica.doc())?;
    line.push(b" waiting")?;
    push_spaced(&mut line, u64::from(replica.waiting()))?;
    line.push(b" holds")?;
    push_spaced(&mut line, u64::from(replica.holds()))?;
    line.push(b"\n")?;
    Ok(line)
}

/// How many live atoms and rows there are.
pub(crate) fn push_live_and_rows<D: Doc>(line: &mut Bytes, doc: &D) -> Result<(), Memory>
    ensures { OnOk result (line.new ≡ line.old ++ live_and_rows (D.rows doc.now)) }
{
    line.push(b" live")?;
    push_spaced(line, u64::from(doc.live()))?;
    line.push(b" rows")?;
    push_spaced(line, u64::from(doc.rows()))
}
