// The commands of a shell, and what each asks for behind its first word.
ghost use Rattle.std.specs.Prelude.{◌≡◌, ◌≤◌};
ghost use Rattle.td_script.specs.Answers.{IsLineAnswer};
ghost use Rattle.td_script.specs.ShellFaults.{send_at, shell_command, shell_flat_at, take_at};

use crate::argument::{last, next_word, number};
use crate::hex::hex_word;
use crate::kind::{Kind, LineFault};
use crate::shared::{index_and_text, place_named, proposal, two_numbers};
use crate::shell::command::ShellCommand;
use crate::shell::word::ShellWord;
use std::alloc::Global;
use td_base::MAX_SITE;

/// The command that the word begins, among so many sites.
pub(crate) fn shell_command(
    alloc: Global,
    sites: u8,
    word: ShellWord,
    rest: &str,
) -> Result<ShellCommand, LineFault>
    requires { sites ≤ MAX_SITE }
    ensures { IsLineAnswer (shell_command sites word rest.now) result }
{
    match word {
        ShellWord::Ins => {
            let (index, atoms) = index_and_text(alloc, rest)?;
            Ok(ShellCommand::Ins { index, atoms })
        }
        ShellWord::Paste => {
            let (index, atoms) = index_and_text(alloc, rest)?;
            Ok(ShellCommand::Paste { index, atoms })
        }
        ShellWord::Del => {
            let (index, count) = two_numbers(rest)?;
            Ok(ShellCommand::Del { index, count })
        }
        ShellWord::Flat => Ok(flat(rest)?),
        ShellWord::Cancel => {
            let proposal = proposal(sites, rest)?;
            Ok(ShellCommand::Cancel { proposal })
        }
        ShellWord::Take => take(alloc, rest),
        ShellWord::Send => Ok(send(rest)?),
        ShellWord::Show => Ok(last(ShellCommand::Show, rest)?),
        ShellWord::Tree => Ok(last(ShellCommand::Tree, rest)?),
        ShellWord::Count => Ok(last(ShellCommand::Count, rest)?),
    }
}

fn flat(rest: &str) -> Result<ShellCommand, Kind>
    ensures { result ≡ shell_flat_at rest.now }
{
    let (word, rest) = next_word(rest)?;
    if word == "auto" {
        return last(ShellCommand::FlatAuto, rest);
    }
    let place = place_named(word, rest)?;
    Ok(ShellCommand::Flat { place })
}

fn take(alloc: Global, rest: &str) -> Result<ShellCommand, LineFault>
    ensures { IsLineAnswer (take_at rest.now) result }
{
    let (word, rest) = next_word(rest)?;
    let packet = hex_word(alloc, word)?;
    Ok(last(ShellCommand::Take { packet }, rest)?)
}

fn send(rest: &str) -> Result<ShellCommand, Kind>
    ensures { result ≡ send_at rest.now }
{
    let (from, rest) = number(rest)?;
    last(ShellCommand::Send { from }, rest)
}
