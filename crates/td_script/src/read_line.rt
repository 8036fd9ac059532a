ghost use Rattle.std.specs.Prelude.{◌≡◌, ◌<◌, ◌≤◌, ◌^◌};
ghost use Rattle.td_script.specs.Arguments.{cut_word};
ghost use Rattle.td_script.specs.Faults.{judged, command_named};
ghost use Rattle.td_script.specs.Answers.{IsLineAnswer};
ghost use Rattle.td_script.specs.Words.{word_named};

use crate::argument::split_word;
use crate::before::Before;
use crate::command::Command;
use crate::kind::{Kind, LineFault};
use crate::language::command;
use crate::line::hear;
use crate::word::Word;
use std::alloc::Global;
use td_base::MAX_SITE;

/// What the line says in a script of so many bytes: a command, or nothing.
pub(crate) fn read_line(
    alloc: Global,
    size: usize,
    before: Before,
    line: &[u8],
) -> Result<Option<Command>, LineFault>
    requires sites { before.sites ≤ MAX_SITE }
    requires requests { before.requests < 2 ^ 63 }
    ensures { IsLineAnswer (judged size before line.now) result }
{
    let Some(text) = hear(line)? else {
        return Ok(None);
    };
    let command = read_command(alloc, size, before, text)?;
    Ok(Some(command))
}

// The command that the line spells.
fn read_command(
    alloc: Global,
    size: usize,
    before: Before,
    line: &str,
) -> Result<Command, LineFault>
    requires sites { before.sites ≤ MAX_SITE }
    requires requests { before.requests < 2 ^ 63 }
    ensures { IsLineAnswer (command_named size before (word_named (cut_word line.now).0) (cut_word line.now).1) result }
{
    let (name, rest) = split_word(line);
    let word = Word::named(name).ok_or(Kind::Word)?;
    if before.is_misplaced(word) {
        return Err(LineFault::Faulty(Kind::Sites));
    }
    let command = command(alloc, size, before, word, rest)?;
    if before.is_too_much(&command) {
        return Err(LineFault::Faulty(Kind::Size));
    }
    Ok(command)
}
