ghost use Rattle.std.specs.Prelude.{◌≤◌, IfOk, IfSome};
ghost use Rattle.td_script.specs.Arguments.{cut_word};
ghost use Rattle.td_script.specs.Answers.{IsLineAnswer};
ghost use Rattle.td_script.specs.ShellFaults.{IsFitToPaste, shell_command_named, shell_judged};
ghost use Rattle.td_script.specs.ShellWords.{shell_word_named};

use crate::argument::split_word;
use crate::kind::{Kind, LineFault};
use crate::line::hear;
use crate::shell::command::ShellCommand;
use crate::shell::language::shell_command;
use crate::shell::word::ShellWord;
use std::alloc::Global;
use td_base::MAX_SITE;

/// What a line says to a shell, at a site of so many: a command, or nothing.
pub fn read_shell_line(
    alloc: Global,
    sites: u8,
    line: &[u8],
) -> Result<Option<ShellCommand>, LineFault>
    requires { sites ≤ MAX_SITE }
    ensures line { IsLineAnswer (shell_judged sites line.now) result }
    ensures fit { IfOk result (λ said. IfSome said IsFitToPaste) }
{
    let Some(text) = hear(line)? else {
        return Ok(None);
    };
    let command = read_shell_command(alloc, sites, text)?;
    Ok(Some(command))
}

// The command that the line spells.
fn read_shell_command(alloc: Global, sites: u8, line: &str) -> Result<ShellCommand, LineFault>
    requires { sites ≤ MAX_SITE }
    ensures { IsLineAnswer
        (shell_command_named sites (shell_word_named (cut_word line.now).0) (cut_word line.now).1) result }
{
    let (name, rest) = split_word(line);
    let word = ShellWord::named(name).ok_or(Kind::Word)?;
    shell_command(alloc, sites, word, rest)
}
