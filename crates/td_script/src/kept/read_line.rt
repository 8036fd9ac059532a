ghost use Rattle.std.specs.Prelude.{◌<◌, ◌≤◌, ◌^◌};
ghost use Rattle.td_script.specs.Arguments.{cut_word};
ghost use Rattle.td_script.specs.Answers.{IsLineAnswer};
ghost use Rattle.td_script.specs.KeptFaults.{kept_command_named, kept_judged};
ghost use Rattle.td_script.specs.KeptWords.{kept_word_named};

use crate::argument::split_word;
use crate::kept::before::KeptBefore;
use crate::kept::command::KeptCommand;
use crate::kept::language::kept_command;
use crate::kept::word::KeptWord;
use crate::kind::{Kind, LineFault};
use crate::line::hear;
use std::alloc::Global;
use td_base::MAX_SITE;

/// What the line says in a kept script of so many bytes: a command, or nothing.
pub(crate) fn read_kept_line(
    alloc: Global,
    size: usize,
    before: KeptBefore,
    line: &[u8],
) -> Result<Option<KeptCommand>, LineFault>
    requires sites { before.sites ≤ MAX_SITE }
    requires requests { before.requests < 2 ^ 63 }
    ensures { IsLineAnswer (kept_judged size before line.now) result }
{
    let Some(text) = hear(line)? else {
        return Ok(None);
    };
    let command = read_kept_command(alloc, size, before, text)?;
    Ok(Some(command))
}

// The command that the line spells.
fn read_kept_command(
    alloc: Global,
    size: usize,
    before: KeptBefore,
    line: &str,
) -> Result<KeptCommand, LineFault>
    requires sites { before.sites ≤ MAX_SITE }
    requires requests { before.requests < 2 ^ 63 }
    ensures { IsLineAnswer
        (kept_command_named size before (kept_word_named (cut_word line.now).0) (cut_word line.now).1) result }
{
    let (name, rest) = split_word(line);
    let word = KeptWord::named(name).ok_or(Kind::Word)?;
    if before.is_misplaced(word) {
        return Err(LineFault::Faulty(Kind::Sites));
    }
    let command = kept_command(alloc, size, before.sites, word, rest)?;
    if before.is_too_much(&command) {
        return Err(LineFault::Faulty(Kind::Size));
    }
    Ok(command)
}
