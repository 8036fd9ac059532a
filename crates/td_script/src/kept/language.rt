// The commands of kept scripts, and what each asks for behind its first word.
ghost use Rattle.std.specs.Prelude.{◌≡◌, ◌≤◌};
ghost use Rattle.td_script.specs.Answers.{IsLineAnswer};
ghost use Rattle.td_script.specs.KeptFaults.{crash_at, disk_call_of, kept_command, kept_give_at, kept_site_command};

use crate::argument::{last, next_word, number, number_word, site_word};
use crate::kept::command::KeptCommand;
use crate::kept::script::DISK_CALLS;
use crate::kept::word::{KeptSiteWord, KeptWord};
use crate::kind::{Kind, LineFault};
use crate::quoted::last_cluster;
use crate::shared::{index_and_text, place, proposal, sites_number, two_numbers};
use std::alloc::Global;
use td_base::{MAX_SITE, Site};

/// The command that the word begins, in a script of so many bytes, among so many sites.
pub(crate) fn kept_command(
    alloc: Global,
    size: usize,
    sites: u8,
    word: KeptWord,
    rest: &str,
) -> Result<KeptCommand, LineFault>
    requires { sites ≤ MAX_SITE }
    ensures { IsLineAnswer (kept_command size sites word rest.now) result }
{
    match word {
        KeptWord::Sites => {
            let n = sites_number(size, rest)?;
            Ok(KeptCommand::Sites { n })
        }
        KeptWord::AtSite(word) => {
            let (text, rest) = next_word(rest)?;
            let site = site_word(text, sites)?;
            kept_site_command(alloc, sites, site, word, rest)
        }
    }
}

// The command at this site, among so many sites.
fn kept_site_command(
    alloc: Global,
    sites: u8,
    site: Site,
    word: KeptSiteWord,
    rest: &str,
) -> Result<KeptCommand, LineFault>
    requires { sites ≤ MAX_SITE }
    ensures { IsLineAnswer (kept_site_command sites site word rest.now) result }
{
    match word {
        KeptSiteWord::Ins => {
            let (index, atoms) = index_and_text(alloc, rest)?;
            Ok(KeptCommand::Ins { site, index, atoms })
        }
        KeptSiteWord::Del => {
            let (index, count) = two_numbers(rest)?;
            Ok(KeptCommand::Del { site, index, count })
        }
        KeptSiteWord::Flat => {
            let place = place(rest)?;
            Ok(KeptCommand::Flat { site, place })
        }
        KeptSiteWord::Cancel => {
            let proposal = proposal(sites, rest)?;
            Ok(KeptCommand::Cancel { site, proposal })
        }
        KeptSiteWord::Give => Ok(give(site, rest)?),
        KeptSiteWord::Show => Ok(last(KeptCommand::Show { site }, rest)?),
        KeptSiteWord::Crash => crash(alloc, site, rest),
    }
}

fn give(site: Site, rest: &str) -> Result<KeptCommand, Kind>
    ensures { result ≡ kept_give_at site rest.now }
{
    let (number, rest) = number(rest)?;
    let number = u64::from(number);
    last(KeptCommand::Give { site, number }, rest)
}

fn crash(alloc: Global, site: Site, rest: &str) -> Result<KeptCommand, LineFault>
    ensures { IsLineAnswer (crash_at site rest.now) result }
{
    let (word, rest) = next_word(rest)?;
    let k = disk_call_word(word)?;
    let (choice, rest) = number(rest)?;
    let (index, rest) = number(rest)?;
    let atom = last_cluster(alloc, rest)?;
    let choice = u64::from(choice);
    Ok(KeptCommand::Crash {
        site,
        k,
        choice,
        index,
        atom,
    })
}

// The number of the disk call that the word is.
fn disk_call_word(word: &str) -> Result<u32, Kind>
    ensures { result ≡ disk_call_of word.now }
{
    let number = number_word(word)?;
    if number == 0 || number > DISK_CALLS {
        return Err(Kind::Number);
    }
    Ok(number)
}
