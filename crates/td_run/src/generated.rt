ghost use Rattle.std.specs.Prelude.{◌≡◌, ◌≤◌, All, IfOk, IsErrOf};
ghost use Rattle.td_base.specs.declared.site.TheConstants.{MAX_SITE};
ghost use Rattle.td_doc.specs.Document.{live_atoms};
ghost use Rattle.td_gen.specs.Generator.{generated};
ghost use Rattle.td_gen.specs.declared.generator.TheConstants.{MAX_SIZE};
ghost use Rattle.td_order.specs.Show.{shown_atoms};
ghost use Rattle.td_report.specs.Numbers.{summary_of};
ghost use Rattle.td_world.specs.World.{machine_of, size as sites_of};
ghost use Rattle.td_run.specs.declared.answer.Stop.TheVariants.{Read as Unread};
ghost use Rattle.td_run.specs.declared.status.Status.TheVariants.{Done};
ghost use Rattle.td_run.specs.Outputs.{machines, IsPlayedBy, IsSummary};
ghost use Rattle.td_run.specs.Printing.{Printed};
ghost use Rattle.td_run.specs.Sites.{MayStand};

use crate::answer::{Answer, Stop};
use crate::play::play;
use crate::status::Status;
use std::alloc::Global;
use std::io;
use td_base::{Bytes, Memory, Site};
use td_doc::Doc;
use td_gen::script_of;
use td_io::WriteSink;
use td_report::summary_lines;
use td_script::Script;
use td_tree::Tree;
use td_world::World;

/// What the command `gen` comes to.
pub(crate) fn summary(alloc: Global, size: u32, number: u32) -> Result<Answer, Stop>
    requires { size ≤ MAX_SIZE }
    ensures answer { IfOk result (λ a. (a.status ≡ Done) × IsSummary size number a.bytes) }
    ensures read { IsErrOf result Unread → ⊥ }
{
    Ok(Answer {
        status: Status::Done,
        bytes: generated::<Tree>(alloc, size, number)?,
    })
}

// Plays the generated script of a size and a number, and sums up what its three sites have then.
fn generated<D: Doc>(alloc: Global, size: u32, number: u32) -> Result<Bytes, Memory>
    requires { size ≤ MAX_SIZE }
    ensures { IfOk result (IsSummary size number) }
{
    let script = script_of(alloc, size, u64::from(number))?;
    let world = played::<D>(alloc, &script)?;
    let commands = script.commands.as_slice().len() as u32;
    sum_up(alloc, size, number, commands, &world)
}

// Plays a script of which nothing is printed.
fn played<D: Doc>(alloc: Global, script: &Script) -> Result<World<D>, Memory>
    requires some { 1 ≤ script.now.sites }
    requires few { script.now.sites ≤ MAX_SITE }
    requires each { All (MayStand script.now.sites) script.now.commands }
    ensures played { IfOk result (λ world. (end : Printed) × IsPlayedBy script.now end × (world ≡ end.world)) }
    ensures sites { IfOk result (λ world. sites_of world ≡ script.now.sites) }
{
    match play::<D, WriteSink<io::Sink>>(alloc, script, &mut WriteSink::new(io::sink())) {
        Ok(world) => Ok(world),
        Err(_) => Err(Memory),
    }
}

// The summary of three sites.
fn sum_up<D: Doc>(
    alloc: Global,
    size: u32,
    number: u32,
    commands: u32,
    world: &World<D>,
) -> Result<Bytes, Memory>
    requires { 3 ≤ sites_of world.now }
    ensures own { IfOk result (λ lines. lines
        ≡ summary_of size number commands (machines world.now) (live_atoms (machine_of world.now 1).doc)) }
    ensures taken { IfOk result (λ lines. lines
        ≡ summary_of size number commands (machines world.now) (shown_atoms (machine_of world.now 1).log)) }
{
    let (Some(one), Some(two), Some(three)) = (Site::new(1), Site::new(2), Site::new(3)) else {
        unreachable!()
    };
    summary_lines(
        alloc,
        size,
        u64::from(number),
        commands,
        world.replica(one),
        world.replica(two),
        world.replica(three),
    )
}
