// The replicas of the sites, that of site s at place s - 1.
ghost use Rattle.std.specs.Prelude.{◌≡◌, ◌<◌, ◌≤◌, ◌+◌, ◌-◌, length, set, IfOk, OnErr, OnOk, vec_len};
ghost use Rattle.td_base.specs.declared.site.TheConstants.{MAX_SITE};
ghost use Rattle.td_replica.specs.Replica.{after_step};
ghost use Rattle.td_world.specs.World.{replica_from};
ghost use Rattle.td_world.specs.Sending.{IsDone};

use td_base::{Memory, Site};
use td_doc::Doc;
use td_op::{Input, Reply};
use td_replica::Replica;

/// What a step did: its reply, and how many messages the site had sent before and after it.
#[derive(Clone, Copy, Debug)]
pub struct Done {
    pub reply: Reply,
    pub before: u64,
    pub after: u64,
}

/// The replica of a site.
pub fn replica_of<D: Doc>(replicas: &[Replica<D>], site: Site) -> &Replica<D>
    requires { site ≤ length replicas.now }
    ensures replica { result.now ≡ replica_from replicas.now (site - 1) }
    ensures some { 1 ≤ site }
{
    &replicas[site.place()]
}

/// One step of a site.
pub fn step_of<D: Doc>(
    replicas: &mut Vec<Replica<D>>,
    site: Site,
    input: &Input,
) -> Result<Done, Memory>
    requires { site ≤ length replicas.old.items }
    ensures done { IfOk result (λ done. IsDone (replica_from replicas.old.items (site - 1)) input.now done) }
    ensures ok { OnOk result (replicas.new.items
        ≡ set replicas.old.items (site - 1) (after_step input.now (replica_from replicas.old.items (site - 1)))) }
    ensures err { OnErr result (replicas.new.items ≡ replicas.old.items) }
    ensures some { 1 ≤ site }
{
    step_one(&mut replicas[site.place()], input)
}

fn step_one<D: Doc>(replica: &mut Replica<D>, input: &Input) -> Result<Done, Memory>
    ensures done { IfOk result (λ done. IsDone replica.old input.now done) }
    ensures ok { OnOk result (replica.new ≡ after_step input.now replica.old) }
    ensures err { OnErr result (replica.new ≡ replica.old) }
{
    let before = replica.sent();
    let reply = replica.step_on(input)?;
    Ok(Done {
        reply,
        before,
        after: replica.sent(),
    })
}
