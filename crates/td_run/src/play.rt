ghost use Rattle.std.specs.Prelude.{◌≡◌, ◌≤◌, ℕ, List, All, length, IfOk, IsErrOf, OnErr, OnOk};
ghost use Rattle.std.specs.Io.KnownBytes.{Appends};
ghost use Rattle.td_base.specs.declared.site.TheConstants.{MAX_SITE};
ghost use Rattle.td_io.specs.Count.{Rose};
ghost use Rattle.td_script.specs.Script.{AreCommands};
ghost use Rattle.td_world.specs.World.{size};
ghost use Rattle.td_world.specs.Promises.{IsPromised};
ghost use Rattle.td_run.specs.declared.play.Halt.TheVariants.{Write as Unwritten};
ghost use Rattle.td_run.specs.Answer.{PutsFront};
ghost use Rattle.td_run.specs.Answering.{IsPutOnTheWay};
ghost use Rattle.td_run.specs.Outputs.{IsOutputOf, IsPlayedAndPut};
ghost use Rattle.td_run.specs.Printing.{own_text, taken_text, Prints};
ghost use Rattle.td_run.specs.Sites.{MayStand};

use crate::player::Player;
use crate::status::Status;
use std::alloc::Global;
use td_base::Memory;
use td_doc::Doc;
use td_io::{Failed, Sink};
use td_script::{Command, Script};
use td_world::World;

/// Why a script is not played to its end.
#[derive(Clone, Copy, Debug, PartialEq, Eq)]
pub(crate) enum Halt {
    /// Memory ran out.
    Memory,
    /// What it prints could not be written.
    Write,
}

impl From<Memory> for Halt {
    ghost use Rattle.std.specs.Prelude.{◌≡◌};
    ghost use Rattle.td_run.specs.declared.play.Halt.{Halt};

    ghost from_gives = { λ _ halt. halt ≡ Halt.Memory };

    fn from(_memory: Memory) -> Halt {
        Halt::Memory
    }
}

impl From<Failed> for Halt {
    ghost use Rattle.std.specs.Prelude.{◌≡◌};
    ghost use Rattle.td_run.specs.declared.play.Halt.{Halt};

    ghost from_gives = { λ _ halt. halt ≡ Halt.Write };

    fn from(_failed: Failed) -> Halt {
        Halt::Write
    }
}

/// Plays a script, puts what it prints as it goes, and answers how the run ends.
pub(crate) fn play_out<D: Doc, K: Sink>(alloc: Global, script: &Script, sink: &mut K) -> Status
    requires { AreCommands script.now.sites script.now.commands }
    ensures { (bytes : List ℕ) × IsOutputOf script.now bytes
        × IsPutOnTheWay K.Sink bytes sink.old sink.new result }
{
    match put_output::<D, K>(alloc, script, sink) {
        Ok(()) => Status::Done,
        Err(Halt::Memory) => Status::Memory,
        Err(Halt::Write) => Status::Write,
    }
}

// Plays a script, and puts what it prints.
fn put_output<D: Doc, K: Sink>(alloc: Global, script: &Script, sink: &mut K) -> Result<(), Halt>
    requires { AreCommands script.now.sites script.now.commands }
    ensures put { OnOk result ((bytes : List ℕ) × IsOutputOf script.now bytes
        × Appends (K.held sink.old) (K.held sink.new) bytes) }
    ensures halted { OnErr result ((bytes : List ℕ) × IsOutputOf script.now bytes
        × PutsFront (K.held sink.old) (K.held sink.new) bytes) }
    ensures failed { IsErrOf result Unwritten → Rose (K.faults sink.old) (K.faults sink.new) }
{
    if script.sites == 0 {
        return Ok(());
    }
    play::<D, K>(alloc, script, sink)?;
    Ok(())
}

/// Plays a script that has sites, and puts what it prints in pieces, as it goes. The memory that it takes for that is
/// that of a piece and of what one command prints. After a `Halt` a front of what it prints is put.
pub(crate) fn play<D: Doc, K: Sink>(
    alloc: Global,
    script: &Script,
    sink: &mut K,
) -> Result<World<D>, Halt>
    requires some { 1 ≤ script.now.sites }
    requires few { script.now.sites ≤ MAX_SITE }
    requires each { All (MayStand script.now.sites) script.now.commands }
    ensures played { IfOk result (IsPlayedAndPut (K.held sink.old) (K.held sink.new) script.now) }
    ensures sites { IfOk result (λ world. size world ≡ script.now.sites) }
    ensures halted { OnErr result (AreCommands script.now.sites script.now.commands → (bytes : List ℕ)
        × IsOutputOf script.now bytes × PutsFront (K.held sink.old) (K.held sink.new) bytes) }
    ensures failed { IsErrOf result Unwritten → Rose (K.faults sink.old) (K.faults sink.new) }
{
    let mut player = Player::new(alloc, script.sites)?;
    let commands = script.commands.as_slice();
    for command in commands {
        perform(&mut player, command)?;
        player.put_piece(sink)?;
    }
    player.put_rest(sink)?;
    keeps_promises(&player);
    Ok(player.world)
}

// The world keeps the six promises, as each world does.
fn keeps_promises<D: Doc>(player: &Player<D>)
    ensures { IsPromised player.now.world }
{
    player.world.sent();
}

// Does one command, and prints what it prints.
fn perform<D: Doc>(player: &mut Player<D>, command: &Command) -> Result<(), Memory>
    requires stands { MayStand (size player.old.world) command.now }
    requires marks { length player.old.marks ≡ size player.old.world }
    ensures own { OnOk result (Prints own_text player.old command.now player.new) }
    ensures taken { OnOk result (Prints taken_text player.old command.now player.new) }
{
    match command {
        Command::Sites { .. } => Ok(()),
        Command::Ins { site, index, atoms } => player.insert(*site, *index, atoms),
        Command::Paste { site, index, atoms } => player.paste(*site, *index, atoms),
        Command::Del { site, index, count } => player.delete(*site, *index, *count),
        Command::Flat { site, place } => player.propose(*site, *place),
        Command::FlatAuto { site } => player.propose_best(*site),
        Command::Cancel { site, proposal } => player.cancel(*site, *proposal),
        Command::Give { site, number } => player.give(*site, *number),
        Command::GiveAll { site } => player.give_all(*site),
        Command::Settle => player.settle(),
        Command::Show { site } => player.show(*site),
        Command::Tree { site } => player.tree(*site),
        Command::Count { site } => player.count(*site),
        Command::Mark {
            site,
            add,
            name,
            index,
            count,
        } => player.mark(*site, *add, *name, *index, *count),
        Command::Meet { site, other } => player.meet(*site, *other),
        Command::Marks { site } => player.marks(*site),
    }
}
