ghost use Rattle.std.specs.Prelude.{◌≡◌, IfOk};
ghost use Rattle.td_run.specs.VerdictLine.{fault_name, verdict_line};

use itoa::Buffer;
use std::alloc::Global;
use td_base::{Bytes, Memory};
use td_check::{Fault, Verdict};

/// The line of the verdict on a trace.
pub(crate) fn verdict_line(alloc: Global, verdict: Verdict) -> Result<Bytes, Memory>
    ensures { IfOk result (λ line. line ≡ verdict_line verdict) }
{
    let mut line = Bytes::new(alloc);
    match verdict {
        Verdict::Yes => line.push(b"yes\n")?,
        Verdict::No {
            line: number,
            fault,
        } => {
            line.push(b"no ")?;
            line.push(Buffer::new().format(number).as_bytes())?;
            line.push(b" ")?;
            line.push(fault_name(fault).as_bytes())?;
            line.push(b"\n")?;
        }
    }
    Ok(line)
}

// What is wrong with a trace in small letters.
fn fault_name(fault: Fault) -> &'static str
    ensures { result.now ≡ fault_name fault }
{
    match fault {
        Fault::Size => "size",
        Fault::Form => "form",
        Fault::Reply => "reply",
        Fault::Missing => "missing",
        Fault::Call => "call",
        Fault::Look => "look",
        Fault::Alone => "alone",
        Fault::Text => "text",
        Fault::Open => "open",
    }
}
