// What a worker does in a turn.
ghost use Rattle.std.specs.Prelude.{◌≡◌, ◌<◌, ◌+◌, ℕ, List, false, length, OnOk};
ghost use Rattle.std.specs.List.{AllZip};
ghost use Rattle.td_site.specs.Sites.{SiteValue};
ghost use Rattle.td_site.specs.Later.{LaterSite};
ghost use Rattle.td_line.specs.Lines.{LineValue};
ghost use Rattle.td_peer.specs.Peers.{PeerState};
ghost use Rattle.td_room.specs.Workers.{IsWorker, LaterWorker};
ghost use Rattle.td_room.specs.Walk.{SoFar};
ghost use Rattle.td_room.specs.Turns.{TurnedWorker, TurnedLine, IsCaughtUp, HeardPeer, ToldPeer};

use crate::hearing::hear;
use crate::worker::Worker;
use std::sync::Wait;
use td_base::Memory;
use td_doc::Doc;
use td_line::Gate;

impl<D: Doc> Worker<D> {
    /// A turn: for each editor at most one request is taken, done, shown and answered; then, for each peer, at most one
    /// packet is taken, and what may be given to the replica is given to it; and then, for each, at most one packet is
    /// sent. What a full link or want of memory stopped is kept, and done first the next time. It may wait for readers.
    pub fn turn<G: Gate, R: Wait>(&mut self, rt: &R, gate: &G) -> Result<(), Memory>
        ensures later { LaterWorker self.old self.new }
        ensures worker { IsWorker self.new }
        ensures turned { OnOk result (TurnedWorker self.old self.new) }
    {
        let done = self.take_turn(rt, gate);
        self.is_worker();
        done
    }

    fn take_turn<G: Gate, R: Wait>(&mut self, rt: &R, gate: &G) -> Result<(), Memory>
        ensures later { LaterWorker self.old self.new }
        ensures turned { OnOk result (TurnedWorker self.old self.new) }
    {
        self.serve_all(rt, gate)?;
        self.hear_all(rt)?;
        self.tell_all(rt);
        // the last publish has all entries
        let _shown = self.site.told();
        gate.turned(self.site.replica().site());
        Ok(())
    }

    // What holds of it at every moment.
    pub(crate) fn is_worker(&self)
        ensures { IsWorker self.now }
    {
        let _ = self.lines.len();
    }

    // Part 1, for the editors.
    fn serve_all<G: Gate, R: Wait>(&mut self, rt: &R, gate: &G) -> Result<(), Memory>
        ensures later { LaterWorker self.old self.new }
        ensures peers { self.new.peers ≡ self.old.peers }
        ensures turned { OnOk result (AllZip TurnedLine self.old.lines self.new.lines) }
    {
        for i in 0..self.lines.len() {
            self.serve_one(rt, gate, i)?;
        }
        Ok(())
    }

    fn serve_one<G: Gate, R: Wait>(&mut self, rt: &R, gate: &G, i: usize) -> Result<(), Memory>
        requires { i < length self.old.lines }
        ensures later { LaterWorker self.old self.new }
        ensures peers { self.new.peers ≡ self.old.peers }
        ensures count { length self.new.lines ≡ length self.old.lines }
        ensures turned { OnOk result ((before : List LineValue) → SoFar TurnedLine i before self.old.lines
            → SoFar TurnedLine (i + 1) before self.new.lines) }
    {
        let line = &mut self.lines[i];
        line.serve(rt, gate, &mut self.site)
    }

    // Part 2: what comes from the other workers.
    fn hear_all<R: Wait>(&mut self, rt: &R) -> Result<(), Memory>
        ensures later { LaterWorker self.old self.new }
        ensures lines { self.new.lines ≡ self.old.lines }
        ensures caught_up { OnOk result (IsCaughtUp self.new.site) }
        ensures heard { OnOk result (AllZip (HeardPeer self.old.site self.new.site) self.old.peers self.new.peers) }
    {
        self.catch_up(rt)?;
        for i in 0..self.peers.len() {
            self.hear_one(rt, i)?;
        }
        Ok(())
    }

    // Shows what is not shown yet, and takes what waits in the replica.
    pub(crate) fn catch_up<R: Wait>(&mut self, rt: &R) -> Result<(), Memory>
        ensures later { LaterWorker self.old self.new }
        ensures same { (self.new.lines ≡ self.old.lines) × (self.new.peers ≡ self.old.peers) }
        ensures caught_up { OnOk result (IsCaughtUp self.new.site) }
    {
        self.site.catch_up(rt)
    }

    fn hear_one<R: Wait>(&mut self, rt: &R, i: usize) -> Result<(), Memory>
        requires some { i < length self.old.peers }
        requires caught_up { IsCaughtUp self.old.site }
        ensures later { LaterWorker self.old self.new }
        ensures lines { self.new.lines ≡ self.old.lines }
        ensures count { length self.new.peers ≡ length self.old.peers }
        ensures caught_up { OnOk result (IsCaughtUp self.new.site) }
        ensures heard { OnOk result ((first : SiteValue) (before : List PeerState) → LaterSite first self.old.site
            → SoFar (HeardPeer first self.old.site) i before self.old.peers
            → SoFar (HeardPeer first self.new.site) (i + 1) before self.new.peers) }
    {
        let peer = &mut self.peers[i];
        hear(rt, &mut self.site, peer)?;
        // its history has led to its machine
        let _ = self.site.replica().entries();
        Ok(())
    }

    // Part 3: what goes to the other workers.
    fn tell_all<R: Wait>(&mut self, rt: &R)
        ensures later { LaterWorker self.old self.new }
        ensures same { (self.new.lines ≡ self.old.lines) × (self.new.site ≡ self.old.site) }
        ensures told { AllZip (ToldPeer self.new.site) self.old.peers self.new.peers }
    {
        for i in 0..self.peers.len() {
            self.tell_one(rt, i);
        }
    }

    fn tell_one<R: Wait>(&mut self, rt: &R, i: usize)
        requires { i < length self.old.peers }
        ensures later { LaterWorker self.old self.new }
        ensures same { (self.new.lines ≡ self.old.lines) × (self.new.site ≡ self.old.site) }
        ensures count { length self.new.peers ≡ length self.old.peers }
        ensures told { (before : List PeerState) → SoFar (ToldPeer self.old.site) i before self.old.peers
            → SoFar (ToldPeer self.old.site) (i + 1) before self.new.peers }
    {
        let peer = &mut self.peers[i];
        peer.tell(rt, self.site.replica());
    }
}
