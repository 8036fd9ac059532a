// One step of the replica, which the next commit keeps.
ghost use Rattle.std.specs.Prelude.{◌≡◌, false, IfErr, IfOk, OnOk};
ghost use Rattle.td_journal.specs.Seen.{is_closed, replica_of};
ghost use Rattle.td_machine.specs.Step.{step};
ghost use Rattle.td_op.specs.declared.input.Input.TheVariants.{Local};
ghost use Rattle.td_replica.specs.Replica.{after_step};
ghost use Rattle.td_shell.specs.Asking.{after_request, reply_to};
ghost use Rattle.td_shell.specs.Staging.{IsStaged};
ghost use Rattle.td_shell.specs.Wanting.{IsWanting};

use crate::halt::Halt;
use td_disk::Disk;
use td_doc::Doc;
use td_journal::Kept;
use td_op::{Input, Reply, Request};

/// The step of an input.
pub(crate) fn stage<D: Doc, K: Disk>(kept: &mut Kept<D, K>, input: Input) -> Result<Reply, Halt>
    requires { is_closed kept.old ≡ false }
    ensures reply { IfOk result (λ reply. reply ≡ (step (replica_of kept.old).machine input).reply) }
    ensures ok { OnOk result (replica_of kept.new ≡ after_step input (replica_of kept.old)) }
    ensures staged { IsStaged kept.old kept.new }
    ensures wanting { IfErr result (IsWanting kept.new (after_step input (replica_of kept.old))) }
{
    match kept.stage(input) {
        Ok(reply) => Ok(reply),
        Err(fault) => Err(Halt::of(fault)),
    }
}

/// The step of a request.
pub(crate) fn ask<D: Doc, K: Disk>(kept: &mut Kept<D, K>, request: Request) -> Result<Reply, Halt>
    requires { is_closed kept.old ≡ false }
    ensures reply { IfOk result (λ reply. reply ≡ reply_to request (replica_of kept.old)) }
    ensures ok { OnOk result (replica_of kept.new ≡ after_request request (replica_of kept.old)) }
    ensures staged { IsStaged kept.old kept.new }
    ensures wanting { IfErr result (IsWanting kept.new (after_request request (replica_of kept.old))) }
{
    stage(kept, Input::Local(request))
}
