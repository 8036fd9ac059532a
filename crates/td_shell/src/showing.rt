// The commands that print what the site has, and change nothing.
ghost use Rattle.std.specs.Prelude.{◌≡◌, ◌-◌, IfOk};
ghost use Rattle.td_doc.specs.Document.{text_of};
ghost use Rattle.td_report.specs.Tree.{show_line, tree_lines};
ghost use Rattle.td_shell.specs.Sending.{sent_behind};

use crate::sending::push_sent;
use std::alloc::Global;
use td_base::{Bytes, Memory};
use td_doc::Doc;
use td_replica::Replica;
use td_report::{show_line, tree_lines};

/// The text.
pub(crate) fn shown<D: Doc>(alloc: Global, replica: &Replica<D>) -> Result<Bytes, Memory>
    ensures { IfOk result (λ line. line ≡ show_line replica.now.machine.site (text_of replica.now.machine.doc)) }
{
    let text = replica.text(alloc)?;
    show_line(alloc, replica.site(), text.as_slice())
}

/// The rows.
pub(crate) fn rows<D: Doc>(alloc: Global, replica: &Replica<D>) -> Result<Bytes, Memory>
    ensures { IfOk result (λ lines. lines ≡ tree_lines replica.now.machine.site replica.now.machine.doc) }
{
    // tells that its history is legal, so that its document obeys the rules of one
    replica.entries();
    tree_lines(alloc, replica.site(), replica.doc())
}

/// The messages that were sent, from this number on.
pub(crate) fn sent_from<D: Doc>(
    alloc: Global,
    replica: &Replica<D>,
    from: u32,
) -> Result<Bytes, Memory>
    ensures { IfOk result (λ lines. lines ≡ sent_behind (from - 1) replica.now.machine.sent) }
{
    let mut lines = Bytes::new(alloc);
    push_sent(&mut lines, replica, u64::from(from).saturating_sub(1))?;
    Ok(lines)
}
