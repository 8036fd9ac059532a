// The course of the replay, in rounds over the sites.
ghost use Rattle.std.specs.Prelude.{◌≡◌, ◌≤◌, false, IfOk};
ghost use Rattle.td_law_replay.specs.Judging.{begin};
ghost use Rattle.td_law_replay.specs.Rounds.{Course};
ghost use Rattle.td_check.specs.Course.{AreSeen, HasGone, HasRounded, HasEnded};
ghost use Rattle.td_check.specs.Sites.{IsReplaying, histories_of, states_of};

use crate::judged::Judged;
use crate::looks::Looks;
use crate::replay::Replay;
use crate::stop::{Stop, Went};
use crate::verdict::Fault;
use std::alloc::Global;
use td_base::{Memory, Site};
use td_doc::Doc;

impl<'a, D: Doc> Replay<'a, D> {
    /// Goes in rounds over the sites up to the end, or to where it stops. The looks are compared on the way.
    pub(crate) fn run(&mut self, alloc: Global, looks: &mut Looks) -> Result<Option<Stop>, Memory>
        requires begun { states_of self.old ≡ begin (histories_of self.old) }
        requires seen { AreSeen self.old looks.old }
        ensures { IfOk result (λ stop. HasEnded self.old self.new looks.new stop) }
    {
        // its parts are in range
        self.sites();
        loop {
            match self.round(alloc, looks)? {
                Went::Stopped { stop } => return Ok(Some(stop)),
                Went::Rests { moved: false } => return Ok(self.stuck()),
                Went::Rests { moved: true } => {}
            }
        }
    }

    // Each site goes as far as it can.
    fn round(&mut self, alloc: Global, looks: &mut Looks) -> Result<Went, Memory>
        requires course { Course (histories_of self.old) (states_of self.old) 1 false }
        requires seen { AreSeen self.old looks.old }
        ensures { IfOk result (λ went. HasRounded self.old self.new looks.new went) }
    {
        let mut moved = false;
        for place in 0..self.sites() {
            match self.go(alloc, Site::at(place), looks)? {
                Went::Stopped { stop } => return Ok(Went::Stopped { stop }),
                Went::Rests { moved: more } => moved |= more,
            }
        }
        Ok(Went::Rests { moved })
    }

    // The site does entry after entry, as far as it can.
    fn go(&mut self, alloc: Global, site: Site, looks: &mut Looks) -> Result<Went, Memory>
        requires within { site ≤ self.old.trace.sites }
        requires replaying { IsReplaying self.old }
        requires seen { AreSeen self.old looks.old }
        ensures { IfOk result (λ went. HasGone site self.old self.new looks.new went) }
    {
        let mut moved = false;
        loop {
            match self.next(site)? {
                None => return Ok(Went::Rests { moved }),
                Some(Judged::Waits) => return Ok(Went::Rests { moved }),
                Some(Judged::Lost) => return Ok(self.stopped(site, Fault::Missing)),
                Some(Judged::Wrong) => return Ok(self.stopped(site, Fault::Reply)),
                Some(Judged::Done) => self.look(alloc, site, looks)?,
            }
            moved = true;
        }
    }
}
