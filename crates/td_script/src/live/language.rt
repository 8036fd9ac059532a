// The commands of the language of live scripts, and what each asks for behind its first word.
ghost use Rattle.std.specs.Prelude.{◌≡◌, ◌≤◌};
ghost use Rattle.td_script.specs.Answers.{IsLineAnswer};
ghost use Rattle.td_script.specs.LiveFaults.{editor_at, editor_line, editor_of, live_command};
ghost use Rattle.td_script.specs.LiveFaults.{loss_at, turns_at, turns_of};

use crate::argument::{last, next_word, number_word, site_word};
use crate::kind::{Kind, LineFault};
use crate::live::command::LiveCommand;
use crate::live::editor_line::EditorLine;
use crate::live::script::{Loss, MAX_TURNS};
use crate::live::word::{EditorWord, LiveWord};
use crate::shared::{index_and_text, place, proposal, sites_number, two_numbers};
use std::alloc::Global;
use td_base::MAX_SITE;

/// The command that the word begins, in a script of so many bytes, among so many sites and editors.
pub(crate) fn live_command(
    alloc: Global,
    size: usize,
    sites: u8,
    editors: u32,
    word: LiveWord,
    rest: &str,
) -> Result<LiveCommand, LineFault>
    requires { sites ≤ MAX_SITE }
    ensures { IsLineAnswer (live_command size sites editors word rest.now) result }
{
    match word {
        LiveWord::Sites => {
            let n = sites_number(size, rest)?;
            Ok(LiveCommand::Sites { n })
        }
        LiveWord::Turns => Ok(turns(rest)?),
        LiveWord::Loss => Ok(loss(rest)?),
        LiveWord::Editor => Ok(editor(sites, rest)?),
        LiveWord::AtEditor(word) => {
            let (text, rest) = next_word(rest)?;
            let editor = editor_word(text, editors)?;
            let line = editor_line(alloc, sites, word, rest)?;
            Ok(LiveCommand::Line { editor, line })
        }
    }
}

fn turns(rest: &str) -> Result<LiveCommand, Kind>
    ensures { result ≡ turns_at rest.now }
{
    let (text, rest) = next_word(rest)?;
    let turns = turns_word(text)?;
    last(LiveCommand::Turns { turns }, rest)
}

// How many turns the word is.
fn turns_word(word: &str) -> Result<u32, Kind>
    ensures { result ≡ turns_of word.now }
{
    let turns = number_word(word)?;
    if turns > MAX_TURNS {
        return Err(Kind::Turns);
    }
    Ok(turns)
}

fn loss(rest: &str) -> Result<LiveCommand, Kind>
    ensures { result ≡ loss_at rest.now }
{
    let (drop_each, double_each) = two_numbers(rest)?;
    let loss = Loss {
        drop_each,
        double_each,
    };
    Ok(LiveCommand::Loss { loss })
}

fn editor(sites: u8, rest: &str) -> Result<LiveCommand, Kind>
    requires { sites ≤ MAX_SITE }
    ensures { result ≡ editor_at sites rest.now }
{
    let (text, rest) = next_word(rest)?;
    let site = site_word(text, sites)?;
    last(LiveCommand::Editor { site }, rest)
}

// The editor that the word is, among so many.
fn editor_word(word: &str, editors: u32) -> Result<u32, Kind>
    ensures { result ≡ editor_of editors word.now }
{
    let number = number_word(word)?;
    if number == 0 || number > editors {
        return Err(Kind::Editor);
    }
    Ok(number)
}

// What the line asks of its editor, among so many sites.
fn editor_line(
    alloc: Global,
    sites: u8,
    word: EditorWord,
    rest: &str,
) -> Result<EditorLine, LineFault>
    requires { sites ≤ MAX_SITE }
    ensures { IsLineAnswer (editor_line sites word rest.now) result }
{
    match word {
        EditorWord::Ins => {
            let (index, atoms) = index_and_text(alloc, rest)?;
            Ok(EditorLine::Ins { index, atoms })
        }
        EditorWord::Paste => {
            let (index, atoms) = index_and_text(alloc, rest)?;
            Ok(EditorLine::Paste { index, atoms })
        }
        EditorWord::Del => {
            let (index, count) = two_numbers(rest)?;
            Ok(EditorLine::Del { index, count })
        }
        EditorWord::Flat => {
            let place = place(rest)?;
            Ok(EditorLine::Flat { place })
        }
        EditorWord::Cancel => {
            let proposal = proposal(sites, rest)?;
            Ok(EditorLine::Cancel { proposal })
        }
        EditorWord::Look => Ok(last(EditorLine::Look, rest)?),
    }
}
