ghost use Rattle.std.specs.Prelude.{◌≡◌, ◌++◌, ◌∷◌, [], ℕ, OnOk};
ghost use Rattle.td_replica.specs.Replica.{new_replica};
ghost use Rattle.td_law_meeting.specs.Thin.{Loss};
ghost use Rattle.td_line.specs.Editors.{IsNewLine};
ghost use Rattle.td_peer.specs.Opening.{IsFreshRow};

use std::alloc::Global;
use std::marker::Model;
use std::sync::Wait;
use td_base::{Memory, Site as Number};
use td_doc::Doc;
use td_line::Line;
use td_peer::Peer;
use td_replica::Replica;
use td_site::Site;
use td_view::Reader;

/// What works for one site: its replica, which it shows, the lines to its editors, and its peers. It keeps a writer, so
/// it can't be dropped: end it by `quit`, or all of a room by `close`. Contracts see a `WorkerValue`.
pub struct Worker<D: Doc> {
    pub(crate) site: Site<D>,
    pub(crate) lines: Vec<Line>,
    pub(crate) peers: Vec<Peer>,
    // by which it can look at its own text
    pub(crate) reader: Reader,
}

impl<D: Doc> Model for Worker<D> {
    ghost use Rattle.td_room.specs.Workers.{WorkerValue, IsWorker};

    ghost Value = { WorkerValue };

    ghost view = { λ w. record { site = w.site; lines = w.lines.items; peers = w.peers.items } };

    ghost invariant = { λ w. IsWorker (record { site = w.site; lines = w.lines.items; peers = w.peers.items }) };
}

impl<D: Doc> Worker<D> {
    // The worker of a site that has done nothing, with no editor yet.
    pub(crate) fn new(alloc: Global, site: Site<D>, peers: Vec<Peer>, reader: Reader) -> Worker<D>
        requires replica { site.replica ≡ new_replica site.replica.machine.site site.replica.machine.size }
        requires fresh { (lost : Loss)
            × IsFreshRow site.replica.machine.size site.replica.machine.site lost peers.items }
        ensures { result ≡ record { site = site; lines = []; peers = peers.items } }
    {
        Worker {
            site,
            lines: Vec::new(alloc),
            peers,
            reader,
        }
    }

    // One line more, on which nothing was sent yet.
    pub(crate) fn push_line(&mut self, line: Line) -> Result<(), Memory>
        requires { (number : ℕ) × IsNewLine number self.old.site.writer.views line }
        ensures { OnOk result (self.new ≡ record self.old { lines = self.old.lines ++ line ∷ [] }) }
    {
        self.lines.reserve(1)?;
        self.lines.push_reserved(line);
        Ok(())
    }

    /// The site that it works for. It takes no memory.
    pub fn home(&self) -> Number
        ensures { result ≡ self.now.site.replica.machine.site }
    {
        self.site.replica().site()
    }

    /// The replica of its site, as it is now. It takes no memory.
    pub fn replica(&self) -> &Replica<D>
        ensures { result.now ≡ self.now.site.replica }
    {
        self.site.replica()
    }

    /// Ends it alone, and loses what it has. It may wait for readers.
    pub fn quit<R: Wait>(self, rt: &R) {
        let Worker {
            site,
            lines: _,
            peers: _,
            reader: _,
        } = self;
        site.quit(rt);
    }
}
