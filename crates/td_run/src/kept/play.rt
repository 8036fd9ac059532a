ghost use Rattle.std.specs.Prelude.{◌≡◌, IfOk, OnOk};
ghost use Rattle.td_script.specs.KeptScript.{AreKeptCommands};
ghost use Rattle.td_world.specs.World.{size};
ghost use Rattle.td_run.specs.KeptPrinting.{IsKeptOutputOf, kept_effect};
ghost use Rattle.td_run.specs.Printing.{and_then, own_text, taken_text};
ghost use Rattle.td_run.specs.Sites.{MayStandKept};

use crate::kept::crashing::Crash;
use crate::kept::player::KeptPlayer;
use std::alloc::Global;
use td_base::{Bytes, Memory};
use td_doc::Doc;
use td_script::{KeptCommand, KeptScript};

/// Plays a kept script; what it prints is answered.
pub(crate) fn play_kept<D: Doc>(alloc: Global, script: &KeptScript) -> Result<Bytes, Memory>
    requires { AreKeptCommands script.now.sites script.now.commands }
    ensures { IfOk result (IsKeptOutputOf script.now) }
{
    if script.sites == 0 {
        return Ok(Bytes::new(alloc));
    }
    let mut player = KeptPlayer::<D>::new(alloc, script.sites)?;
    for command in script.commands.as_slice() {
        perform(&mut player, command)?;
    }
    // tells that its world keeps the promises, as each that is not spent does
    if player.world.is_spent() {
        return Err(Memory);
    }
    Ok(player.text)
}

// Does one command, and prints what it prints.
fn perform<D: Doc>(player: &mut KeptPlayer<D>, command: &KeptCommand) -> Result<(), Memory>
    requires { MayStandKept (size player.old.world) command.now }
    ensures own { OnOk result (player.new
        ≡ and_then player.old (kept_effect own_text command.now player.old.world)) }
    ensures taken { OnOk result (player.new
        ≡ and_then player.old (kept_effect taken_text command.now player.old.world)) }
{
    match command {
        KeptCommand::Sites { .. } => Ok(()),
        KeptCommand::Ins { site, index, atoms } => player.insert(*site, *index, atoms),
        KeptCommand::Del { site, index, count } => player.delete(*site, *index, *count),
        KeptCommand::Flat { site, place } => player.propose(*site, *place),
        KeptCommand::Cancel { site, proposal } => player.cancel(*site, *proposal),
        KeptCommand::Give { site, number } => player.give(*site, *number),
        KeptCommand::Show { site } => player.show(*site),
        KeptCommand::Crash {
            site,
            k,
            choice,
            index,
            atom,
        } => {
            let crash = Crash {
                k: *k,
                choice: *choice,
                index: *index,
                atom: *atom,
            };
            player.crash(*site, &crash)
        }
    }
}
