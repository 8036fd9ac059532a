ghost use Rattle.std.specs.Prelude.{◌≡◌, ◌<◌, ◌≤◌, ◌+◌, ◌%◌, IfOk, OnOk};
ghost use Rattle.td_gen.specs.Generator.{begun, edited, flattened, settled, site_of, turn};
ghost use Rattle.td_gen.specs.Growth.{AreWithin};
ghost use Rattle.td_gen.specs.declared.generator.TheConstants.{MAX_SIZE, SITES};

use crate::edit::edit_at;
use crate::generator::SITES;
use crate::least::Least;
use rand_core::utils::NextWord;
use rand_pcg::Pcg32;
use std::alloc::Global;
use td_base::{Memory, Site};
use td_script::{Command, Commands, Place};

/// The stream of Pcg32 that the words are of.
const STREAM: u64 = 54;

/// After how many edits the sites settle.
const EDITS_TO_SETTLE: u32 = 30;

/// After how many edits the whole text is flattened.
const EDITS_TO_FLATTEN: u32 = 300;

/// A script as far as it is made.
#[derive(Drop)]
pub(crate) struct Progress {
    /// Gives the next words.
    pub words: Pcg32,
    pub least: Least,
    pub commands: Commands,
}

impl Progress {
    /// A script without edits.
    pub(crate) fn begin(alloc: Global, number: u64) -> Result<Progress, Memory>
        ensures { IfOk result (λ p. p ≡ begun number) }
    {
        let mut commands = Commands::new(alloc);
        commands.push(Command::Sites { n: SITES })?;
        Ok(Progress {
            words: Pcg32::new(number, STREAM),
            least: Least {
                shared: 0,
                sites: [0; SITES as usize],
            },
            commands,
        })
    }

    /// The next edit, after so many, and what goes with it.
    pub(crate) fn turn(&mut self, alloc: Global, done: u32) -> Result<(), Memory>
        requires few { done < MAX_SIZE }
        requires within { AreWithin done self.old.least }
        ensures { OnOk result (self.new ≡ turn (done + 1) self.old) }
    {
        self.edit(alloc, done + 1)?;
        self.settle(done + 1)?;
        self.flatten(done + 1)?;
        Ok(())
    }

    // An edit at the site whose turn it is, by the next two words.
    fn edit(&mut self, alloc: Global, number: u32) -> Result<(), Memory>
        requires some { 1 ≤ number }
        requires within { AreWithin MAX_SIZE self.old.least }
        ensures { OnOk result (self.new ≡ edited number self.old) }
    {
        let site = site_at(number - 1);
        let a = self.words.next_word();
        let b = self.words.next_word();
        let done = edit_at(alloc, site, self.least.at(site), a, b)?;
        self.least.set(site, done.least);
        self.commands.push(done.command)?;
        Ok(())
    }

    // The sites settle every so many edits.
    fn settle(&mut self, edits: u32) -> Result<(), Memory>
        requires { AreWithin MAX_SIZE self.old.least }
        ensures { OnOk result (self.new ≡ settled edits self.old) }
    {
        if edits % EDITS_TO_SETTLE == 0 {
            self.least.join();
            self.commands.push(Command::Settle)?;
        }
        Ok(())
    }

    // The sites take turns to flatten, every so many edits.
    fn flatten(&mut self, edits: u32) -> Result<(), Memory>
        ensures { OnOk result (self.new ≡ flattened edits self.old) }
    {
        if edits % EDITS_TO_FLATTEN == 0 {
            let site = site_at(edits / EDITS_TO_FLATTEN);
            let place = Place::Root;
            self.commands.push(Command::Flat { site, place })?;
            self.commands.push(Command::Settle)?;
        }
        Ok(())
    }
}

// The sites go round: the first has turn 0.
fn site_at(turn: u32) -> Site
    ensures { result ≡ 1 + turn % SITES }
{
    match Site::new(1 + (turn % u32::from(SITES)) as u8) {
        Some(site) => site,
        None => unreachable!(),
    }
}
