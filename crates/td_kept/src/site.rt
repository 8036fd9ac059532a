// One site of a world: its kept replica, and the messages that it releases.
ghost use Rattle.std.specs.Prelude.{◌≡◌, ◌≤◌, ◌-◌, ◌++◌, [], ◌∷◌, ℕ, true, false, length, drop};
ghost use Rattle.std.specs.Prelude.{IfOk, OnOk, IsErrOf};
ghost use Rattle.td_base.specs.declared.site.TheConstants.{MAX_SITE};
ghost use Rattle.td_journal.specs.declared.fault.KeptFault.TheVariants.{Full};
ghost use Rattle.td_journal.specs.Seen.{acknowledged, released, replica_of};
ghost use Rattle.td_machine.specs.Step.{step};
ghost use Rattle.td_op.specs.declared.input.Input.TheVariants.{Next, Take};
ghost use Rattle.td_replica.specs.Replica.{new_replica, IsReplica};
ghost use Rattle.td_replica.specs.declared.given.Given.TheVariants.{Took};
ghost use Rattle.td_kept.specs.KeptWorld.{fits, journal_len};
ghost use Rattle.td_kept.specs.Sites.{IsAsked, IsDone, IsPending, IsWhole, after_steps, all_inputs_fit, fitting_inputs};
ghost use Rattle.td_kept.specs.Sites.{given_inputs, waiting_inputs};

use std::alloc::Global;
use td_base::{Memory, Site};
use td_disk::MemDisk;
use td_doc::Doc;
use td_journal::{Format, Kept, KeptFault};
use td_op::{Input, Message, Reply};
use td_replica::{Given, Replica};

/// A site among n that has done nothing, with an empty journal.
pub(crate) fn begun<D: Doc>(alloc: Global, site: Site, n: u8) -> Result<Kept<D, MemDisk>, Memory>
    requires few { n ≤ MAX_SITE }
    requires within { site ≤ n }
    ensures replica { IfOk result (λ kept. replica_of kept ≡ new_replica site n) }
    ensures whole { IfOk result (λ kept. IsWhole kept) }
{
    let disk = MemDisk::new(alloc, &[])?;
    match Kept::create(alloc, site, n, Format::Plain, disk) {
        Ok(kept) => Ok(kept),
        Err(_) => Err(Memory),
    }
}

/// One step, which is on the disk when it is answered; what it sent is added to the messages that are released.
pub(crate) fn step_one<D: Doc>(
    kept: &mut Kept<D, MemDisk>,
    sent: &mut Vec<Message>,
    input: Input,
) -> Result<Reply, KeptFault>
    requires whole { IsWhole kept.old }
    ensures reply { IfOk result (λ reply. reply ≡ (step (replica_of kept.old).machine input).reply) }
    ensures fits { OnOk result (fits input (replica_of kept.old) ≡ true) }
    ensures done { OnOk result (IsDone (input ∷ []) (replica_of kept.old) kept.new sent.old.items sent.new.items) }
    ensures full { (len : ℕ) → IsErrOf result (Full len) → (fits input (replica_of kept.old) ≡ false)
        × (len ≡ journal_len (replica_of kept.old)) × (replica_of kept.new ≡ replica_of kept.old)
        × IsWhole kept.new × (sent.new.items ≡ sent.old.items) }
{
    match kept.stage(input) {
        Ok(reply) => {
            commit(kept, sent)?;
            Ok(reply)
        }
        Err(fault) => Err(fault),
    }
}

/// A message and what waited for it, as one batch: for that many steps the disk is synced twice. Where not all of it
/// has room, what is before is done.
pub(crate) fn give_one<D: Doc>(
    kept: &mut Kept<D, MemDisk>,
    sent: &mut Vec<Message>,
    message: Message,
) -> Result<Given, KeptFault>
    requires whole { IsWhole kept.old }
    ensures given { IfOk result (λ given. given ≡ Took (step (replica_of kept.old).machine (Take message)).reply
        (length (given_inputs message (replica_of kept.old)) - 1)) }
    ensures fits { OnOk result (all_inputs_fit (given_inputs message (replica_of kept.old)) (replica_of kept.old)
        ≡ true) }
    ensures done { OnOk result (IsDone (given_inputs message (replica_of kept.old)) (replica_of kept.old) kept.new
        sent.old.items sent.new.items) }
    ensures full { (len : ℕ) → IsErrOf result (Full len)
        → (all_inputs_fit (given_inputs message (replica_of kept.old)) (replica_of kept.old) ≡ false)
        × (len ≡ journal_len (replica_of kept.new)) × IsDone
        (fitting_inputs (given_inputs message (replica_of kept.old)) (replica_of kept.old)) (replica_of kept.old)
        kept.new sent.old.items sent.new.items }
{
    match kept.stage(Input::Take(message)) {
        Ok(reply) => {
            let next = go_on(kept);
            commit(kept, sent)?;
            match next {
                Ok(next) => Ok(Given::Took { reply, next }),
                Err(fault) => Err(fault),
            }
        }
        Err(fault) => Err(fault),
    }
}

/// One step, which is not on the disk yet.
pub(crate) fn ask<D: Doc>(kept: &mut Kept<D, MemDisk>, input: Input) -> Result<(), KeptFault>
    requires whole { IsWhole kept.old }
    ensures asked { OnOk result (IsAsked input (replica_of kept.old) kept.new) }
    ensures fits { OnOk result (fits input (replica_of kept.old) ≡ true) }
    ensures full { (len : ℕ) → IsErrOf result (Full len) → (fits input (replica_of kept.old) ≡ false)
        × (len ≡ journal_len (replica_of kept.old)) × (replica_of kept.new ≡ replica_of kept.old)
        × IsWhole kept.new }
{
    // tells that its history is legal
    kept.replica().entries();
    match kept.stage(input) {
        Ok(_) => {
            kept.replica().entries();
            Ok(())
        }
        Err(fault) => Err(fault),
    }
}

// Takes what waits, as long as something is ready; how often is answered.
fn go_on<D: Doc>(kept: &mut Kept<D, MemDisk>) -> Result<u32, KeptFault>
    requires pending { IsPending kept.old }
    ensures count { IfOk result (λ count. count ≡ length (waiting_inputs (replica_of kept.old))) }
    ensures ok { OnOk result ((all_inputs_fit (waiting_inputs (replica_of kept.old)) (replica_of kept.old) ≡ true)
        × (replica_of kept.new ≡ after_steps (waiting_inputs (replica_of kept.old)) (replica_of kept.old))) }
    ensures full { (len : ℕ) → IsErrOf result (Full len)
        → (all_inputs_fit (waiting_inputs (replica_of kept.old)) (replica_of kept.old) ≡ false)
        × (len ≡ journal_len (replica_of kept.new))
        × (replica_of kept.new ≡ after_steps
        (fitting_inputs (waiting_inputs (replica_of kept.old)) (replica_of kept.old)) (replica_of kept.old)) }
    ensures pending { IsPending kept.new }
    ensures counted { released kept.new ≡ released kept.old }
{
    let waiting = kept.replica().waiting();
    for k in 0..waiting {
        if !kept.replica().ready() {
            return Ok(k);
        }
        if let Err(fault) = kept.stage(Input::Next) {
            return Err(fault);
        }
    }
    Ok(waiting)
}

// Puts what is staged on the disk, and adds what it sent to the messages that are released. A disk that is told to fail
// no call fails for want of memory alone.
fn commit<D: Doc>(kept: &mut Kept<D, MemDisk>, sent: &mut Vec<Message>) -> Result<(), Memory>
    requires pending { IsPending kept.old }
    ensures replica { replica_of kept.new ≡ replica_of kept.old }
    ensures whole { OnOk result (IsWhole kept.new) }
    ensures sent { OnOk result (sent.new.items
        ≡ sent.old.items ++ drop (released kept.old) (replica_of kept.old).machine.sent) }
{
    let before = kept.released();
    match kept.commit() {
        Ok(()) => release(kept.replica(), before, sent),
        Err(_) => Err(Memory),
    }
}

/// Adds the messages of a replica behind the first so many to those that are released.
pub(crate) fn release<D: Doc>(
    replica: &Replica<D>,
    before: u64,
    sent: &mut Vec<Message>,
) -> Result<(), Memory>
    ensures sent { OnOk result (sent.new.items ≡ sent.old.items ++ drop before replica.now.machine.sent) }
    ensures replica { IsReplica replica.now }
{
    // tells that its history is legal
    replica.entries();
    for k in before..replica.sent() {
        sent.push(replica.message(k + 1))?;
    }
    Ok(())
}
