ghost use Rattle.std.specs.Prelude.{◌≡◌, ◌<◌, ◌≤◌, ◌^◌, ◌+◌};
ghost use Rattle.td_script.specs.KeptFaults.{is_crash_too_many, is_kept_misplaced, is_kept_too_much, kept_after};
ghost use Rattle.td_script.specs.KeptScript.{crashes, kept_requests};

use crate::before::is_too_much;
use crate::kept::command::KeptCommand;
use crate::kept::script::MAX_CRASHES;
use crate::kept::word::KeptWord;

/// What stands before a line of a kept script.
#[derive(Clone, Copy)]
pub(crate) struct KeptBefore {
    /// How many sites there are: 0 before the command `sites`.
    pub sites: u8,
    /// The sum of the requests.
    pub requests: u64,
    /// How many crashes there are.
    pub crashes: u64,
}

impl KeptBefore {
    /// Whether a command that begins so must not stand here: `sites` stands first and once.
    pub(crate) fn is_misplaced(self, word: KeptWord) -> bool
        ensures { result ≡ is_kept_misplaced self.sites word }
    {
        match word {
            KeptWord::Sites => self.sites > 0,
            KeptWord::AtSite(_) => self.sites == 0,
        }
    }

    /// Whether the command passes the sum of the requests that the script may have, or is a crash too many.
    pub(crate) fn is_too_much(self, command: &KeptCommand) -> bool
        requires { self.requests < 2 ^ 63 }
        ensures { result ≡ is_kept_too_much self command.now }
    {
        is_too_much(self.sites, self.requests + requests(command))
            || self.is_crash_too_many(command)
    }

    // Whether the command is a crash behind as many as there may be.
    fn is_crash_too_many(self, command: &KeptCommand) -> bool
        ensures { result ≡ is_crash_too_many self.crashes command.now }
    {
        match command {
            KeptCommand::Crash { .. } => self.crashes >= MAX_CRASHES,
            _ => false,
        }
    }

    /// What stands before the line behind the command.
    pub(crate) fn after(self, command: &KeptCommand) -> KeptBefore
        requires requests { self.requests < 2 ^ 63 }
        requires crashes { self.crashes < 2 ^ 63 }
        ensures after { result ≡ kept_after self command.now }
        ensures bound { result.requests < self.requests + 2 ^ 32 }
        ensures crashes { result.crashes ≤ self.crashes + 1 }
    {
        let sites = match command {
            KeptCommand::Sites { n } => *n,
            _ => self.sites,
        };
        KeptBefore {
            sites,
            requests: self.requests + requests(command),
            crashes: self.crashes + crashes(command),
        }
    }
}

// What the command adds to the sum.
fn requests(command: &KeptCommand) -> u64
    ensures value { result ≡ kept_requests command.now }
    ensures bound { result < 2 ^ 32 }
{
    match command {
        KeptCommand::Ins { atoms, .. } => u64::from(atoms.len()),
        KeptCommand::Del { count, .. } => u64::from(*count),
        KeptCommand::Flat { .. } | KeptCommand::Cancel { .. } | KeptCommand::Crash { .. } => 1,
        _ => 0,
    }
}

// How many crashes the command is.
fn crashes(command: &KeptCommand) -> u64
    ensures value { result ≡ crashes command.now }
    ensures bound { result ≤ 1 }
{
    match command {
        KeptCommand::Crash { .. } => 1,
        _ => 0,
    }
}
