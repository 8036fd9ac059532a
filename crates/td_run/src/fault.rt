ghost use Rattle.std.specs.Prelude.{◌≡◌, IfOk};
ghost use Rattle.td_run.specs.Answer.{fault_line};

use itoa::Buffer;
use std::alloc::Global;
use td_base::{Bytes, Memory};
use td_script::Kind;

/// The line of the first faulty line of a script, and the first thing wrong with it.
pub(crate) fn fault_line(alloc: Global, number: u32, kind: Kind) -> Result<Bytes, Memory>
    ensures { IfOk result (λ line. line ≡ fault_line number kind) }
{
    let mut line = Bytes::new(alloc);
    line.push(b"fault ")?;
    line.push(Buffer::new().format(number).as_bytes())?;
    line.push(b" ")?;
    line.push(kind.name().as_bytes())?;
    line.push(b"\n")?;
    Ok(line)
}
