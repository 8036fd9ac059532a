// One line: what it does, kept, and what is answered.
ghost use Rattle.std.specs.Prelude.{◌≡◌, ◌≤◌, Err, false, IfErr, IfOk, OnErr, OnOk};
ghost use Rattle.td_disk.specs.Gated.{disk_of};
ghost use Rattle.td_disk.specs.Moments.{LeavesOnly};
ghost use Rattle.td_journal.specs.Seen.{IsOwnJournalOfEither, acknowledged_in, inputs_in, is_closed, journal_of};
ghost use Rattle.td_journal.specs.Seen.{replica_of};
ghost use Rattle.td_script.specs.ShellFaults.{IsFitToPaste};
ghost use Rattle.td_shell.specs.Answers.{answer, replied, with_sent};
ghost use Rattle.td_shell.specs.Staging.{HasFailed, IsAllKept, IsLineDone, IsSamePlace, IsStaged};
ghost use Rattle.td_shell.specs.Wanting.{IsWanting};

use crate::halt::Halt;
use crate::replying::reply;
use crate::sending::{fault_line, push_told};
use std::alloc::Global;
use td_base::Bytes;
use td_disk::Disk;
use td_doc::Doc;
use td_journal::Kept;
use td_script::{LineFault, ShellCommand, read_shell_line};

/// Does what the line with this number says, and answers it. Of its Ok all that it does is acknowledged.
pub(crate) fn answer<D: Doc, K: Disk>(
    alloc: Global,
    kept: &mut Kept<D, K>,
    number: u64,
    line: &[u8],
) -> Result<Bytes, Halt>
    requires { IsAllKept K.Disk kept.old }
    ensures { IsLineDone K.Disk kept.old kept.new (answer number line.now (replica_of kept.old)) result }
{
    // tells how many sites there are at most
    kept.replica().entries();
    let sites = kept.replica().size();
    match read_shell_line(alloc, sites, line) {
        Ok(Some(command)) => perform(alloc, kept, &command),
        Ok(None) => Ok(Bytes::new(alloc)),
        Err(LineFault::Faulty(kind)) => Ok(fault_line(alloc, number, kind)?),
        Err(LineFault::Memory) => Err(Halt::Memory),
    }
}

// Does a command.
fn perform<D: Doc, K: Disk>(
    alloc: Global,
    kept: &mut Kept<D, K>,
    command: &ShellCommand,
) -> Result<Bytes, Halt>
    requires kept { IsAllKept K.Disk kept.old }
    requires fit { IsFitToPaste command.now }
    ensures { IsLineDone K.Disk kept.old kept.new
        (with_sent (replica_of kept.old) (replied command.now (replica_of kept.old))) result }
{
    let text = tell(alloc, kept, command)?;
    keep(kept, text)
}

// Stages the steps of a command, and says what is answered.
fn tell<D: Doc, K: Disk>(
    alloc: Global,
    kept: &mut Kept<D, K>,
    command: &ShellCommand,
) -> Result<Bytes, Halt>
    requires open { is_closed kept.old ≡ false }
    requires fit { IsFitToPaste command.now }
    ensures text { IfOk result (λ text. text
        ≡ (with_sent (replica_of kept.old) (replied command.now (replica_of kept.old))).text) }
    ensures ok { OnOk result (replica_of kept.new ≡ (replied command.now (replica_of kept.old)).replica) }
    ensures staged { IsStaged kept.old kept.new }
    ensures wanting { IfErr result (IsWanting kept.new (replied command.now (replica_of kept.old)).replica) }
{
    let before = kept.replica().sent();
    let mut text = reply(alloc, kept, command)?;
    push_told(alloc, &mut text, kept.replica(), before)?;
    Ok(text)
}

// Keeps what is staged, before the answer is let out.
fn keep<D: Doc, K: Disk>(kept: &mut Kept<D, K>, text: Bytes) -> Result<Bytes, Halt>
    requires { is_closed kept.old ≡ false }
    ensures text { IfOk result (λ kept_text. kept_text ≡ text) }
    ensures same { replica_of kept.new ≡ replica_of kept.old }
    ensures kept { OnOk result (IsAllKept K.Disk kept.new) }
    ensures place { IsSamePlace kept.old kept.new }
    ensures failed { OnErr result ((result ≡ Err Halt.Disk)
        × HasFailed K.Disk kept.old kept.new) }
    ensures counts { K.Disk.faults (disk_of (journal_of kept.old)) ≤ K.Disk.faults (disk_of (journal_of kept.new)) }
    ensures any_moment { LeavesOnly K.Disk (disk_of (journal_of kept.old)) (disk_of (journal_of kept.new))
        (IsOwnJournalOfEither kept.old (acknowledged_in kept.old) (inputs_in kept.old)) }
{
    match kept.commit() {
        Ok(()) => Ok(text),
        Err(fault) => Err(Halt::of(fault)),
    }
}
