ghost use Rattle.std.specs.Prelude.{◌≡◌, ◌≤◌};
ghost use Rattle.td_script.specs.Arguments.{cut_word};
ghost use Rattle.td_script.specs.Answers.{IsLineAnswer};
ghost use Rattle.td_script.specs.LiveFaults.{live_command_named, live_judged};
ghost use Rattle.td_script.specs.LiveWords.{live_word_named};

use crate::argument::split_word;
use crate::kind::{Kind, LineFault};
use crate::line::hear;
use crate::live::before::LiveBefore;
use crate::live::command::LiveCommand;
use crate::live::language::live_command;
use crate::live::script::MAX_ALL_CALLS;
use crate::live::word::LiveWord;
use std::alloc::Global;
use td_base::MAX_SITE;

/// What the line says in a live script of so many bytes: a command, or nothing.
pub(crate) fn read_live_line(
    alloc: Global,
    size: usize,
    before: &LiveBefore,
    line: &[u8],
) -> Result<Option<LiveCommand>, LineFault>
    requires sites { before.now.sites ≤ MAX_SITE }
    requires calls { before.now.calls ≤ MAX_ALL_CALLS }
    ensures { IsLineAnswer (live_judged size before.now line.now) result }
{
    let Some(text) = hear(line)? else {
        return Ok(None);
    };
    let command = read_live_command(alloc, size, before, text)?;
    Ok(Some(command))
}

// The command that the line spells.
fn read_live_command(
    alloc: Global,
    size: usize,
    before: &LiveBefore,
    line: &str,
) -> Result<LiveCommand, LineFault>
    requires sites { before.now.sites ≤ MAX_SITE }
    requires calls { before.now.calls ≤ MAX_ALL_CALLS }
    ensures { IsLineAnswer
        (live_command_named size before.now (live_word_named (cut_word line.now).0) (cut_word line.now).1) result }
{
    let (name, rest) = split_word(line);
    let word = LiveWord::named(name).ok_or(Kind::Word)?;
    if before.is_misplaced(word) {
        return Err(LineFault::Faulty(Kind::Sites));
    }
    if let Some(kind) = before.surplus(word) {
        return Err(LineFault::Faulty(kind));
    }
    let command = live_command(alloc, size, before.sites, before.homes.len(), word, rest)?;
    if let Some(kind) = before.sum_fault(&command) {
        return Err(LineFault::Faulty(kind));
    }
    Ok(command)
}
