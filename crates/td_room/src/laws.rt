// What workers and editors come to, each law as the contract of a function with an empty body.
ghost use Rattle.std.specs.Prelude.{List};
ghost use Rattle.std.specs.List.{AllZip};
ghost use Rattle.td_line.specs.Editors.{EditorValue, LaterEditor};
ghost use Rattle.td_room.specs.Workers.{WorkerValue, LaterWorker};
ghost use Rattle.td_room.specs.Rooms.{AreOfOneRoom};

/// Workers and editors of one room are of one room later too, whatever turns and calls were made, in whatever order.
pub fn a_room_stays_one()
    ensures { (before after : List WorkerValue) (editors later : List EditorValue) → AllZip LaterWorker before after
        → AllZip LaterEditor editors later → AreOfOneRoom before editors → AreOfOneRoom after later }
{}

/// What comes later than later comes later.
pub fn later_workers_compose()
    ensures begins { (w : WorkerValue) → LaterWorker w w }
    ensures goes_on { (w v u : WorkerValue) → LaterWorker w v → LaterWorker v u → LaterWorker w u }
{}
