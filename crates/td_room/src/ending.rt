// How a worker ends with its editors.
ghost use Rattle.std.specs.Prelude.{◌≡◌, ◌<◌, ◌+◌, ℕ, List, false, length, map, IfOk, OnOk};
ghost use Rattle.std.specs.List.{AllByRecursion, AllZip};
ghost use Rattle.td_site.specs.Sites.{SiteValue};
ghost use Rattle.td_site.specs.Later.{LaterSite};
ghost use Rattle.td_line.specs.Calls.{OnlyLocals, local_at};
ghost use Rattle.td_line.specs.Lines.{LineValue, HasServed};
ghost use Rattle.td_line.specs.Editors.{EditorValue};
ghost use Rattle.td_peer.specs.Peers.{PeerState};
ghost use Rattle.td_room.specs.Workers.{IsServing, LaterWorker};
ghost use Rattle.td_room.specs.Walk.{SoFar};
ghost use Rattle.td_room.specs.Turns.{IsCaughtUp, GivenPeer};
ghost use Rattle.td_room.specs.Rooms.{Joined};
ghost use Rattle.td_room.specs.Closing.{IsAnswered, all_at};
ghost use Rattle.td_room.specs.Ending.{EndedLine, IsLeft, IsEnded};

use crate::answers::{Answers, SiteAnswers};
use crate::hearing::give;
use crate::looking::end_views;
use crate::worker::Worker;
use std::alloc::Global;
use std::sync::Wait;
use td_base::Memory;
use td_doc::Doc;
use td_line::{Editor, Line};
use td_peer::Row;
use td_replica::Replica;
use td_site::Site;
use td_view::Reader;

impl<D: Doc> Worker<D> {
    // Does all that it owes, ends its lines, and lets its editors see the end. What is left of it is handed out.
    pub(crate) fn end<R: Wait>(
        self,
        rt: &R,
        alloc: Global,
        editors: Vec<Editor>,
    ) -> Result<(Replica<D>, SiteAnswers, Row), Memory>
        requires { AllZip (Joined self.site.writer.views) self.lines editors.items }
        ensures { IfOk result (λ left. IsEnded self editors.items left.0 left.1 left.2) }
    {
        let mut worker = self;
        let Ok(()) = worker.give_all(rt) else {
            worker.quit(rt);
            return Err(Memory);
        };
        let left = worker.leave(rt, alloc, editors)?;
        Ok(left)
    }

    // Gives the replica what waits, where that may be.
    fn give_all<R: Wait>(&mut self, rt: &R) -> Result<(), Memory>
        ensures later { LaterWorker self.old self.new }
        ensures lines { self.new.lines ≡ self.old.lines }
        ensures caught_up { OnOk result (IsCaughtUp self.new.site) }
        ensures given { OnOk result (AllZip (GivenPeer self.old.site self.new.site) self.old.peers self.new.peers) }
    {
        self.catch_up(rt)?;
        for i in 0..self.peers.len() {
            self.give_one(rt, i)?;
        }
        Ok(())
    }

    fn give_one<R: Wait>(&mut self, rt: &R, i: usize) -> Result<(), Memory>
        requires some { i < length self.old.peers }
        requires caught_up { IsCaughtUp self.old.site }
        ensures later { LaterWorker self.old self.new }
        ensures lines { self.new.lines ≡ self.old.lines }
        ensures caught_up { OnOk result (IsCaughtUp self.new.site) }
        ensures given { OnOk result ((first : SiteValue) (before : List PeerState) → LaterSite first self.old.site
            → SoFar (GivenPeer first self.old.site) i before self.old.peers
            → SoFar (GivenPeer first self.new.site) (i + 1) before self.new.peers) }
    {
        let peer = &mut self.peers[i];
        give(rt, &mut self.site, peer)?;
        // its history has led to its machine
        let _ = self.site.replica().entries();
        Ok(())
    }

    // The same, when all that waits is given.
    fn leave<R: Wait>(
        self,
        rt: &R,
        alloc: Global,
        editors: Vec<Editor>,
    ) -> Result<(Replica<D>, SiteAnswers, Row), Memory>
        requires lines { AllZip (Joined self.site.writer.views) self.lines editors.items }
        requires caught_up { IsCaughtUp self.site }
        ensures left { IfOk result (λ left. IsLeft self editors.items left.0 left.1 left.2) }
        ensures peers { IfOk result (λ left. left.2 ≡ self.peers) }
    {
        let Worker {
            mut site,
            lines,
            peers,
            reader: _,
        } = self;
        let Ok((answers, readers)) = end_lines(rt, alloc, &mut site, lines, editors) else {
            site.quit(rt);
            return Err(Memory);
        };
        let Ok(()) = site.catch_up(rt) else {
            site.quit(rt);
            return Err(Memory);
        };
        let _ = site.replica().entries();
        let (replica, writer) = site.parts();
        // the last publish is what is shown
        let _ = writer.told();
        end_views(rt, alloc, writer, readers)?;
        Ok((replica, answers, Row::of(peers)))
    }
}

// Ends all lines of a site, with their editors.
fn end_lines<D: Doc, R: Wait>(
    rt: &R,
    alloc: Global,
    site: &mut Site<D>,
    lines: Vec<Line>,
    editors: Vec<Editor>,
) -> Result<(SiteAnswers, Vec<Reader>), Memory>
    requires late { site.old.late ≡ false }
    requires serving { IsServing site.old lines.items }
    requires joined { AllZip (Joined site.old.writer.views) lines.items editors.items }
    ensures later { LaterSite site.old site.new }
    ensures only { OnlyLocals site.old.replica.entries site.new.replica.entries }
    ensures late { OnOk result (site.new.late ≡ false) }
    ensures answered { IfOk result (λ r. AllZip (IsAnswered site.new.replica) editors.items r.0) }
    ensures counted { IfOk result (λ r. (k : ℕ) → all_at k r.0 ≡ local_at site.new.replica.entries k) }
    ensures readers { IfOk result (λ r. r.1.items ≡ map (λ (e : EditorValue). e.reader) editors.items) }
{
    let mut lines = lines;
    let mut editors = editors;
    let mut answers = Vec::new(alloc);
    let mut readers = Vec::new(alloc);
    while lines.len() > 0 {
        end_line(
            rt,
            alloc,
            site,
            &mut lines,
            &mut editors,
            &mut answers,
            &mut readers,
        )?;
    }
    Ok((SiteAnswers::of(answers), readers))
}

// Ends the first line with its editor.
fn end_line<D: Doc, R: Wait>(
    rt: &R,
    alloc: Global,
    site: &mut Site<D>,
    lines: &mut Vec<Line>,
    editors: &mut Vec<Editor>,
    answers: &mut Vec<Answers>,
    readers: &mut Vec<Reader>,
) -> Result<(), Memory>
    requires late { site.old.late ≡ false }
    requires some { (0 < length lines.old.items) × (0 < length editors.old.items) }
    requires served { AllByRecursion (λ (l : LineValue). HasServed site.old.replica.entries l) lines.old.items }
    requires joined { AllZip (Joined site.old.writer.views) lines.old.items editors.old.items }
    ensures later { LaterSite site.old site.new }
    ensures only { OnlyLocals site.old.replica.entries site.new.replica.entries }
    ensures late { OnOk result (site.new.late ≡ false) }
    ensures ended { OnOk result (EndedLine site.old site.new lines.old.items lines.new.items editors.old.items
        editors.new.items answers.old.items answers.new.items readers.old.items readers.new.items) }
{
    let line = lines.remove(0);
    let editor = editors.remove(0);
    let (given, reader) = line.end(rt, alloc, site, editor)?;
    answers.push(Answers::of(given))?;
    readers.push(reader)?;
    Ok(())
}
