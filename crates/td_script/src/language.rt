// The commands of the language, and what each asks for behind its first word.
ghost use Rattle.std.specs.Prelude.{◌≡◌, ◌≤◌};
ghost use Rattle.td_script.specs.Answers.{IsLineAnswer};
ghost use Rattle.td_script.specs.Faults.{command, mark_at, meet_at, site_command};
ghost use Rattle.td_script.specs.declared.word.SiteWord.TheVariants as At;

use crate::argument::{last, name_word, next_word, number_word, site_word};
use crate::before::Before;
use crate::command::Command;
use crate::kind::{Kind, LineFault};
use crate::shared::{index_and_text, place_named, proposal, sites_number, two_numbers};
use crate::word::{SiteWord, Word};
use std::alloc::Global;
use td_base::{MAX_SITE, Site};

/// The command that the word begins, in a script of so many bytes.
pub(crate) fn command(
    alloc: Global,
    size: usize,
    before: Before,
    word: Word,
    rest: &str,
) -> Result<Command, LineFault>
    requires { before.sites ≤ MAX_SITE }
    ensures { IsLineAnswer (command size before word rest.now) result }
{
    match word {
        Word::Sites => {
            let n = sites_number(size, rest)?;
            Ok(Command::Sites { n })
        }
        Word::Settle => Ok(last(Command::Settle, rest)?),
        Word::AtSite(word) => {
            let (text, rest) = next_word(rest)?;
            let site = site_word(text, before.sites)?;
            site_command(alloc, before.sites, site, word, rest)
        }
    }
}

// The command at this site, among so many sites.
fn site_command(
    alloc: Global,
    sites: u8,
    site: Site,
    word: SiteWord,
    rest: &str,
) -> Result<Command, LineFault>
    requires { sites ≤ MAX_SITE }
    ensures { IsLineAnswer (site_command sites site word rest.now) result }
{
    match word {
        SiteWord::Ins => ins(alloc, site, rest),
        SiteWord::Paste => paste(alloc, site, rest),
        SiteWord::Del => Ok(del(site, rest)?),
        SiteWord::Flat => Ok(flat(site, rest)?),
        SiteWord::Cancel => Ok(cancel(sites, site, rest)?),
        SiteWord::Give => Ok(give(site, rest)?),
        SiteWord::Show => Ok(last(Command::Show { site }, rest)?),
        SiteWord::Tree => Ok(last(Command::Tree { site }, rest)?),
        SiteWord::Count => Ok(last(Command::Count { site }, rest)?),
        SiteWord::Mark => Ok(mark(site, true, rest)?),
        SiteWord::Unmark => Ok(mark(site, false, rest)?),
        SiteWord::Meet => Ok(meet(sites, site, rest)?),
        SiteWord::Marks => Ok(last(Command::Marks { site }, rest)?),
    }
}

fn ins(alloc: Global, site: Site, rest: &str) -> Result<Command, LineFault>
    ensures { IsLineAnswer (site_command 0 site At.Ins rest.now) result }
{
    let (index, atoms) = index_and_text(alloc, rest)?;
    Ok(Command::Ins { site, index, atoms })
}

fn paste(alloc: Global, site: Site, rest: &str) -> Result<Command, LineFault>
    ensures { IsLineAnswer (site_command 0 site At.Paste rest.now) result }
{
    let (index, atoms) = index_and_text(alloc, rest)?;
    Ok(Command::Paste { site, index, atoms })
}

fn del(site: Site, rest: &str) -> Result<Command, Kind>
    ensures { result ≡ site_command 0 site At.Del rest.now }
{
    let (index, count) = two_numbers(rest)?;
    Ok(Command::Del { site, index, count })
}

fn flat(site: Site, rest: &str) -> Result<Command, Kind>
    ensures { result ≡ site_command 0 site At.Flat rest.now }
{
    let (word, rest) = next_word(rest)?;
    if word == "auto" {
        return last(Command::FlatAuto { site }, rest);
    }
    let place = place_named(word, rest)?;
    Ok(Command::Flat { site, place })
}

fn cancel(sites: u8, site: Site, rest: &str) -> Result<Command, Kind>
    requires { sites ≤ MAX_SITE }
    ensures { result ≡ site_command sites site At.Cancel rest.now }
{
    let proposal = proposal(sites, rest)?;
    Ok(Command::Cancel { site, proposal })
}

fn give(site: Site, rest: &str) -> Result<Command, Kind>
    ensures { result ≡ site_command 0 site At.Give rest.now }
{
    let (message, rest) = next_word(rest)?;
    if message == "all" {
        return last(Command::GiveAll { site }, rest);
    }
    let number = u64::from(number_word(message)?);
    last(Command::Give { site, number }, rest)
}

fn mark(site: Site, add: bool, rest: &str) -> Result<Command, Kind>
    ensures { result ≡ mark_at site add rest.now }
{
    let (name, rest) = next_word(rest)?;
    let name = name_word(name)?;
    let (index, count) = two_numbers(rest)?;
    Ok(Command::Mark {
        site,
        add,
        name,
        index,
        count,
    })
}

fn meet(sites: u8, site: Site, rest: &str) -> Result<Command, Kind>
    requires { sites ≤ MAX_SITE }
    ensures { result ≡ meet_at sites site rest.now }
{
    let (other, rest) = next_word(rest)?;
    let other = site_word(other, sites)?;
    last(Command::Meet { site, other }, rest)
}
