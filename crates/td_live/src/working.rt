// Workers and desks on threads.
ghost use Rattle.std.specs.Prelude.{List};
ghost use Rattle.std.specs.List.{AllZip};
ghost use denote.Param.Send.{IsSync};
ghost use Rattle.td_room.specs.Workers.{WorkerValue, LaterWorker};
ghost use Rattle.td_room.specs.Rooms.{AreOfOneRoom};
ghost use Rattle.td_live.specs.Desks.{DeskValue, LaterDesk};
ghost use Rattle.td_live.specs.Working.{editors_at};

use crate::desk::Desk;
use crate::went::Went;
use std::sync::Wait;
use std::thread;
use std::thread::{Threads, join_mut};
use td_base::Memory;
use td_line::Gate;
use td_room::Worker;
use td_tree::Tree;

/// Each worker makes so many turns, and each desk at most so many, up to `Over`; each is on a thread of its own, and
/// all of them at once, as far as threads can be made. What finds no memory in a turn goes on with its next turn. It
/// may wait for readers.
pub fn work<R: Threads + Wait + Sync, G: Gate + Sync>(
    rt: &R,
    gate: &G,
    turns: u32,
    workers: &mut [Worker<Tree>],
    desks: &mut [Desk],
)
    ensures workers { AllZip LaterWorker workers.old workers.new }
    ensures desks { AllZip LaterDesk desks.old desks.new }
{
    join_mut(
        rt,
        &mut ||
            requires { IsSync R.row × IsSync G.row }
            ensures { AllZip LaterWorker workers.entry.now workers.exit.now }
        { run_workers(rt, gate, turns, workers) },
        &mut ||
            requires { IsSync R.row }
            ensures { AllZip LaterDesk desks.entry.now desks.exit.now }
        { run_desks(rt, turns, desks) },
    );
}

fn run_workers<R: Threads + Wait + Sync, G: Gate + Sync>(
    rt: &R,
    gate: &G,
    turns: u32,
    workers: &mut [Worker<Tree>],
)
    ensures { AllZip LaterWorker workers.old workers.new }
{
    let threads = workers.len().max(1);
    thread::for_each_mut(
        rt,
        workers,
        threads,
        &|_place, worker| run_worker(rt, gate, turns, worker),
    );
}

fn run_desks<R: Threads + Wait + Sync>(rt: &R, turns: u32, desks: &mut [Desk])
    ensures { AllZip LaterDesk desks.old desks.new }
{
    let threads = desks.len().max(1);
    thread::for_each_mut(
        rt,
        desks,
        threads,
        &|_place, desk| run_desk(rt, turns, desk),
    );
}

// The worker makes so many turns, and lets others go on between them. What want of memory stops in one of them is done
// first in the next.
fn run_worker<R: Wait, G: Gate>(rt: &R, gate: &G, turns: u32, worker: &mut Worker<Tree>)
    ensures { LaterWorker worker.old worker.new }
{
    for _ in 0..turns {
        let _went = worker.turn(rt, gate);
        thread::yield_now();
    }
}

// The desk makes at most so many turns, up to `Over`. Where one found nothing to do yet, it lets others go on.
fn run_desk<R: Wait>(rt: &R, turns: u32, desk: &mut Desk)
    ensures { LaterDesk desk.old desk.new }
{
    for _ in 0..turns {
        match desk.turn(rt) {
            Ok(Went::Over) => break,
            Ok(Went::Again) | Err(Memory) => thread::yield_now(),
            Ok(_) => {}
        }
    }
}

/// Workers and desks whose editors are of one room with them are so after their work.
pub fn work_stays_in_its_room()
    ensures { (before after : List WorkerValue) (desks later : List DeskValue) → AllZip LaterWorker before after
        → AllZip LaterDesk desks later → AreOfOneRoom before (editors_at desks)
        → AreOfOneRoom after (editors_at later) }
{}
