// A room that a test plays.
ghost use Rattle.std.specs.Prelude.{◌≡◌, ◌≤◌, All, length, map};
ghost use Rattle.td_base.specs.declared.site.TheConstants.{MAX_SITE};
ghost use Rattle.td_machine.specs.History.{IsConsistent};
ghost use Rattle.td_replica.specs.Replica.{ReplicaValue};
ghost use Rattle.td_world.specs.World.{AreSites};

use std::alloc::Global;
use std::marker::Model;
use std::process::Abort;
use std::sync::Wait;
use td_base::{Atom, Site};
use td_doc::Rows;
use td_line::{Always, Editor, NotSent};
use td_op::{Reply, Request};
use td_room::{Closed, Worker, close, room};
use td_view::Opener;
use td_world::World;

pub(crate) struct Stage {
    pub(crate) workers: Vec<Worker<Rows>>,
    pub(crate) editors: Vec<Editor>,
}

impl Model for Stage {
    ghost use Rattle.std.specs.Prelude.{List};
    ghost use Rattle.td_line.specs.Editors.{EditorValue};
    ghost use Rattle.td_room.specs.Workers.{WorkerValue};
    ghost use Rattle.td_room.specs.Rooms.{AreOfOneRoom};

    ghost Value = { List WorkerValue × List EditorValue };

    ghost view = { λ s. (s.workers.items, s.editors.items) };

    ghost invariant = { λ s. AreOfOneRoom s.workers.items s.editors.items };
}

pub(crate) fn site<R: Abort>(rt: &R, number: u8) -> Site
    requires some { 1 ≤ number }
    requires few { number ≤ MAX_SITE }
    ensures { result ≡ number }
{
    Site::new(number).expect(rt, "a site")
}

impl Stage {
    pub(crate) fn open<R: Wait + Abort>(
        rt: &R,
        alloc: Global,
        n: u8,
        homes: &[Site],
        calls: &[u32],
        drop_each: u32,
        double_each: u32,
    ) -> Stage
        requires some { 1 ≤ n }
        requires few { n ≤ MAX_SITE }
        requires editors { length homes.now ≤ 64 }
        requires within { All (λ home. home ≤ n) homes.now }
        requires calls { length calls.now ≡ length homes.now }
    {
        let mut opener = Opener::new();
        let (workers, editors) = room(
            rt,
            alloc,
            &mut opener,
            n,
            homes,
            calls,
            drop_each,
            double_each,
        )
        .expect(rt, "a room");
        Stage { workers, editors }
    }

    // A turn of the worker at this place.
    pub(crate) fn turn<R: Wait + Abort>(&mut self, rt: &R, place: usize) {
        assert!(rt; place < self.workers.len());
        let worker = &mut self.workers[place];
        worker.turn(rt, &Always).expect(rt, "memory");
    }

    // The editor at this place asks for a letter at the front.
    pub(crate) fn ask<R: Wait + Abort>(&mut self, rt: &R, place: usize) -> Result<u32, NotSent> {
        assert!(rt; place < self.editors.len());
        let atom = Atom::new(b"a").expect(rt, "an atom");
        let editor = &mut self.editors[place];
        editor.submit(rt, Request::Insert { index: 0, atom })
    }

    // The next answer: the call, and its entry. It says that the letter is made.
    pub(crate) fn answer<R: Wait + Abort>(&mut self, rt: &R, place: usize) -> Option<(u32, u64)> {
        assert!(rt; place < self.editors.len());
        let editor = &mut self.editors[place];
        let answer = editor.poll(rt)?;
        assert!(rt; matches!(answer.reply, Reply::Made { .. }));
        Some((answer.call, answer.entry))
    }

    // How many entries the text has that the editor is shown, and how many atoms.
    pub(crate) fn look<R: Abort>(&mut self, rt: &R, place: usize) -> Option<(u64, u32)> {
        assert!(rt; place < self.editors.len());
        let editor = &mut self.editors[place];
        editor.look(|shown| (shown.upto(), shown.len()))
    }

    // How many entries the history of the site at this place has.
    pub(crate) fn entries<R: Abort>(&self, rt: &R, place: usize) -> u64 {
        assert!(rt; place < self.workers.len());
        self.workers[place].replica().entries()
    }

    fn close<R: Wait + Abort>(self, rt: &R, alloc: Global) -> Closed<Rows>
        ensures sites { AreSites result.replicas.items }
        ensures consistent { IsConsistent (map (λ (r : ReplicaValue). r.entries) result.replicas.items) }
    {
        let Stage { workers, editors } = self;
        close(rt, alloc, workers, editors).expect(rt, "memory")
    }

    // Closes the room. How many answers there are, and how many messages are given until the sites have settled.
    pub(crate) fn end<R: Wait + Abort>(self, rt: &R, alloc: Global) -> (u64, u64) {
        let closed = self.close(rt, alloc);
        let mut count: u64 = 0;
        for answers in &closed.answers {
            count = count.wrapping_add(answers.as_slice().len() as u64);
        }
        let mut world = World::of_replicas(alloc, closed.replicas).expect(rt, "memory");
        (count, world.settle().expect(rt, "memory"))
    }
}
