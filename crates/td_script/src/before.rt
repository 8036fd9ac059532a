ghost use Rattle.std.specs.Prelude.{◌≡◌, ◌<◌, ◌^◌, ◌+◌};
ghost use Rattle.td_script.specs.Faults.{after, is_misplaced, is_too_much};
ghost use Rattle.td_script.specs.Script.{requests};

use crate::command::Command;
use crate::script::{MAX_MIDDLE_REQUESTS, MAX_WIDE_REQUESTS};
use crate::word::Word;

/// The greatest number of sites at which the bytes of a script are not limited by it.
pub(crate) const MAX_NARROW: u8 = 16;

/// The greatest number of sites at which the requests of a script are not limited.
pub(crate) const MAX_FREE: u8 = 8;

/// What stands before a line.
#[derive(Clone, Copy)]
pub(crate) struct Before {
    /// How many sites there are: 0 before the command `sites`.
    pub sites: u8,
    /// The sum of the requests.
    pub requests: u64,
}

impl Before {
    /// Whether a command that begins so must not stand here: `sites` stands first and once.
    pub(crate) fn is_misplaced(self, word: Word) -> bool
        ensures { result ≡ is_misplaced self word }
    {
        match word {
            Word::Sites => self.sites > 0,
            Word::Settle | Word::AtSite(_) => self.sites == 0,
        }
    }

    /// Whether the command passes the sum of the requests that the script may have.
    pub(crate) fn is_too_much(self, command: &Command) -> bool
        requires { self.requests < 2 ^ 63 }
        ensures { result ≡ is_too_much self.sites (self.requests + requests command.now) }
    {
        is_too_much(self.sites, self.requests + requests(command))
    }

    /// What stands before the line behind the command.
    pub(crate) fn after(self, command: &Command) -> Before
        requires { self.requests < 2 ^ 63 }
        ensures after { result ≡ after self command.now }
        ensures bound { result.requests < self.requests + 2 ^ 32 }
    {
        let sites = match command {
            Command::Sites { n } => *n,
            _ => self.sites,
        };
        Before {
            sites,
            requests: self.requests + requests(command),
        }
    }
}

/// Whether so many requests are too many for so many sites.
pub(crate) fn is_too_much(sites: u8, sum: u64) -> bool
    ensures { result ≡ is_too_much sites sum }
{
    (sites > MAX_NARROW && sum > MAX_WIDE_REQUESTS)
        || (sites > MAX_FREE && sum > MAX_MIDDLE_REQUESTS)
}

// What the command adds to the sum.
fn requests(command: &Command) -> u64
    ensures value { result ≡ requests command.now }
    ensures bound { result < 2 ^ 32 }
{
    match command {
        Command::Ins { atoms, .. } | Command::Paste { atoms, .. } => u64::from(atoms.len()),
        Command::Del { count, .. } => u64::from(*count),
        Command::Flat { .. } | Command::FlatAuto { .. } | Command::Cancel { .. } => 1,
        _ => 0,
    }
}
