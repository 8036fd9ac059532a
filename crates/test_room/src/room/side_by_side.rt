// Two workers on two threads, which meet at the end of each turn.
ghost use Rattle.std.specs.Prelude.{◌≤◌, length};
ghost use Rattle.std.specs.List.{AllZip};
ghost use Rattle.td_room.specs.Workers.{LaterWorker};
ghost use denote.Param.Send.{IsSync};

use crate::room::stage::{Stage, site};
use std::process::Abort;
use std::sync::Wait;
use std::sync::atomic::{AtomicBool, AtomicU64, Ordering};
use std::thread;
use std::thread::{Threads, join_mut};
use td_base::Site;
use td_doc::Rows;
use td_line::Gate;
use td_room::Worker;

// So often a worker looks whether the other one has made as many turns.
const PATIENCE: u64 = 30_000_000;

#[derive(Drop)]
struct Meeting {
    first: AtomicU64,
    second: AtomicU64,
    // a worker has looked so often, and the other one did not come
    alone: AtomicBool,
}

impl Gate for Meeting {
    fn before(&self, _site: Site, _editor: u32, _call: u32) {}

    fn after(&self, _site: Site, _editor: u32, _call: u32) {}

    fn turned(&self, site: Site) {
        let (own, other) = if site.number() == 1 {
            (&self.first, &self.second)
        } else {
            (&self.second, &self.first)
        };
        let turns = own.fetch_add(1, Ordering::SeqCst).wrapping_add(1);
        for _ in 0..PATIENCE {
            if other.load(Ordering::SeqCst) >= turns {
                return;
            }
            thread::yield_now();
        }
        self.alone.store(true, Ordering::SeqCst);
    }
}

fn turns<R: Wait + Abort>(rt: &R, gate: &Meeting, worker: &mut Worker<Rows>)
    ensures { LaterWorker worker.old worker.new }
{
    for _ in 0..3 {
        worker.turn(rt, gate).expect(rt, "memory");
    }
}

// The first worker makes three turns.
fn run<R: Wait + Abort>(rt: &R, gate: &Meeting, workers: &mut [Worker<Rows>])
    ensures { AllZip LaterWorker workers.old workers.new }
{
    if workers.len() == 0 {
        return;
    }
    let worker = &mut workers[0];
    turns(rt, gate, worker);
}

// The two workers run at once, each on a thread of its own.
fn run_both<R: Threads + Wait + Abort + Sync>(rt: &R, gate: &Meeting, workers: &mut [Worker<Rows>])
    requires { 1 ≤ length workers.old }
    ensures { AllZip LaterWorker workers.old workers.new }
{
    let (front, back) = workers.split_at_mut(1);
    join_mut(
        rt,
        &mut ||
            requires { IsSync R.row }
            ensures { AllZip LaterWorker front.entry.now front.exit.now }
        { run(rt, gate, front) },
        &mut ||
            requires { IsSync R.row }
            ensures { AllZip LaterWorker back.entry.now back.exit.now }
        { run(rt, gate, back) },
    );
}

impl Stage {
    fn run_both<R: Threads + Wait + Abort + Sync>(&mut self, rt: &R, gate: &Meeting) {
        assert!(rt; self.workers.len() == 2);
        run_both(rt, gate, &mut self.workers);
    }
}

#[test]
fn workers_that_run_at_once_take_packets_of_each_other(rt: HostRuntime) {
    let gate = Meeting {
        first: AtomicU64::new(0),
        second: AtomicU64::new(0),
        alone: AtomicBool::new(false),
    };
    let homes = [site(&rt, 1), site(&rt, 2)];
    let mut stage = Stage::open(&rt, rt.alloc(), 2, &homes, &[1, 1], 0, 0);
    assert_eq!(rt; stage.ask(&rt, 0), Ok(1));
    assert_eq!(rt; stage.ask(&rt, 1), Ok(1));
    stage.run_both(&rt, &gate);
    assert!(rt; !gate.alone.load(Ordering::SeqCst));
    assert_eq!(rt; stage.entries(&rt, 0), 2);
    assert_eq!(rt; stage.entries(&rt, 1), 2);
    assert_eq!(rt; stage.end(&rt, rt.alloc()), (2, 0));
}
