// Live scripts: what is printed where no actor makes a turn, and threads that have to meet.
use super::plays::words_of;
use std::alloc::Global;
use std::process::Abort;
use std::sync::Wait;
use std::sync::atomic::{AtomicBool, Ordering};
use std::test::Fail;
use std::thread;
use std::thread::Threads;
use td_base::Site;
use td_io::{MemSink, MemSource};
use td_line::{Always, Gate};
use td_run::{Status, run, run_live};

// Live scripts whose trace is the same each time, with it.
const FIXED: [(&str, &str); 3] = [
    (
        r#"sites 2
turns 0
editor 1
ins 1 0 "ab"
flat 1 root
ins 1 0 "x"
look 1
"#,
        r#"sites 2
site 1
1 insert 0 "a" -> made 1.1
2 insertafter 1.1 "b" -> made 1.2
3 propose root -> made 1.3
4 insert 0 "x" -> held 1.3
5 take vote 2 1.3 yes -> new
site 2
1 take op 1.1 -> new
2 take op 1.2 -> new
3 take op 1.3 -> new
4 take op 1.4 -> new
editor 1 1
call 1 1
call 2 2
call 3 3
call 4 4
look 4 4 "ab"
text 1 "ab"
text 2 "ab"
end
"#,
    ),
    ("# nobody is there\n", "sites 0\nend\n"),
    (
        r#"sites 1
turns 0
loss 1 1
editor 1
editor 1
look 2
paste 1 0 "ab\"0123456789012345678901234567890123456789012345678901234567890123"
ins 2 1 ""
ins 2 99 "ab"
del 1 0 2
flat 2 0 left
cancel 1 1.1
look 1
"#,
        r#"sites 1
site 1
1 paste 0 "a" "b" "\"" "0" "1" "2" "3" "4" "5" "6" "7" "8" "9" "0" "1" "2" "3" "4" "5" "6" "7" "8" "9" "0" "1" "2" "3" "4" "5" "6" "7" "8" "9" "0" "1" "2" "3" "4" "5" "6" "7" "8" "9" "0" "1" "2" "3" "4" "5" "6" "7" "8" "9" "0" "1" "2" "3" "4" "5" "6" "7" "8" "9" "0" -> made 1.1
2 pasteafter 1.1+63 "1" "2" "3" -> made 1.2
3 delete 0 -> made 1.3
4 delete 0 -> made 1.4
5 cancel 1.1 -> notopen 1.1
6 insert 99 "a" -> position 65
7 proposeat 0 left -> made 1.5
editor 1 1
call 1 1
call 2 2
call 3 3
call 4 4
call 5 5
look 5 5 "\"0123456789012345678901234567890123456789012345678901234567890123"
editor 2 1
look 0 5 "\"0123456789012345678901234567890123456789012345678901234567890123"
call 1 6
call 2 7
text 1 "\"0123456789012345678901234567890123456789012345678901234567890123"
end
"#,
    ),
];

// The trace of a live script, where it has at most so many bytes, and how it ended.
pub fn traced<G: Gate + Sync, R: Threads + Wait + Copy + Send + Sync>(
    rt: &R,
    alloc: Global,
    script: &[u8],
    room: u32,
    gate: &G,
) -> Result<(Status, MemSink), Fail> {
    let mut source = MemSource::new(alloc, script, &[])?;
    let mut sink = MemSink::new(alloc, room, &[])?;
    let status = run_live(rt, alloc, &mut source, &mut sink, gate);
    Ok((status, sink))
}

#[test]
fn without_turns_the_trace_is_always_the_same(rt: HostRuntime) -> Result<(), Fail> {
    let live = words_of(rt.alloc(), &["live"])?;
    for (script, trace) in &FIXED {
        let mut source = MemSource::new(rt.alloc(), script.as_bytes(), &[])?;
        let mut sink = MemSink::new(rt.alloc(), 10_000, &[])?;
        let status = run(&rt, rt.alloc(), &live, &mut source, &mut sink, &Always);
        assert_eq!(rt; status, Status::Done, "{script}");
        assert_eq!(rt; sink.held(), trace.as_bytes(), "{script}");
    }
    Ok(())
}

// How often an actor that waits for another one looks whether it has come.
const PATIENCE: u64 = 400_000_000;

// What has happened, by the number of the site, and whether somebody has waited in vain.
#[derive(Drop)]
struct Seen {
    // its call 1 was taken, and answered
    before: [AtomicBool; 4],
    after: [AtomicBool; 4],
    // a turn ended after that
    turned: [AtomicBool; 4],
    alone: AtomicBool,
}

fn nowhere() -> [AtomicBool; 4] {
    [
        AtomicBool::new(false),
        AtomicBool::new(false),
        AtomicBool::new(false),
        AtomicBool::new(false),
    ]
}

impl Seen {
    fn nothing() -> Seen {
        Seen {
            before: nowhere(),
            after: nowhere(),
            turned: nowhere(),
            alone: AtomicBool::new(false),
        }
    }

    // Waits until it has happened at the site, for so long.
    fn wait_for(&self, happened: &[AtomicBool; 4], site: usize) {
        for _ in 0..PATIENCE {
            if is_set(happened, site) {
                return;
            }
            thread::yield_now();
        }
        self.alone.store(true, Ordering::SeqCst);
    }
}

fn set(flags: &[AtomicBool; 4], site: usize) {
    if let Some(flag) = flags.get(site) {
        flag.store(true, Ordering::SeqCst);
    }
}

fn is_set(flags: &[AtomicBool; 4], site: usize) -> bool {
    match flags.get(site) {
        Some(flag) => flag.load(Ordering::SeqCst),
        None => false,
    }
}

// Holds the call of each of two sites until that of the other one is taken.
#[derive(Drop)]
struct Together {
    seen: Seen,
}

impl Gate for Together {
    fn before(&self, site: Site, _editor: u32, _call: u32) {
        let site = usize::from(site.number());
        set(&self.seen.before, site);
        self.seen
            .wait_for(&self.seen.before, 3_usize.saturating_sub(site));
    }

    fn after(&self, _site: Site, _editor: u32, _call: u32) {}

    fn turned(&self, _site: Site) {}
}

#[test]
fn two_workers_meet_in_the_middle_of_their_turns(rt: HostRuntime) -> Result<(), Fail> {
    let gate = Together {
        seen: Seen::nothing(),
    };
    let script = r#"sites 2
turns 100000
editor 1
editor 2
ins 1 0 "a"
ins 2 0 "b"
"#;
    let (status, _) = traced(&rt, rt.alloc(), script.as_bytes(), 10_000, &gate)?;
    assert_eq!(rt; status, Status::Done);
    assert!(rt; is_set(&gate.seen.before, 1) && is_set(&gate.seen.before, 2));
    assert!(rt; !gate.seen.alone.load(Ordering::SeqCst));
    Ok(())
}

// Holds the call of site 1 until the first of the other sites has ended a turn behind its own call, which is held until
// that of site 1 is taken; and the call of the third site until site 1 has ended such a turn.
#[derive(Drop)]
struct OneAfterAnother {
    first: u8,
    seen: Seen,
}

impl Gate for OneAfterAnother {
    fn before(&self, site: Site, _editor: u32, _call: u32) {
        set(&self.seen.before, usize::from(site.number()));
        if site.number() == self.first {
            self.seen.wait_for(&self.seen.before, 1);
        } else if site.number() == 1 {
            self.seen
                .wait_for(&self.seen.turned, usize::from(self.first));
        } else {
            self.seen.wait_for(&self.seen.turned, 1);
        }
    }

    fn after(&self, site: Site, _editor: u32, _call: u32) {
        set(&self.seen.after, usize::from(site.number()));
    }

    fn turned(&self, site: Site) {
        let site = usize::from(site.number());
        if is_set(&self.seen.after, site) {
            set(&self.seen.turned, site);
        }
    }
}

#[test]
fn who_comes_first_stands_in_the_history(rt: HostRuntime) -> Result<(), Fail> {
    let script = r#"sites 3
turns 100000
editor 1
editor 2
editor 3
ins 1 0 "a"
ins 2 0 "b"
ins 3 0 "c"
"#;
    let orders = [
        (
            2,
            "sites 3\nsite 1\n1 insert 0 \"a\" -> made 1.1\n2 take op 2.1 -> new\n",
        ),
        (
            3,
            "sites 3\nsite 1\n1 insert 0 \"a\" -> made 1.1\n2 take op 3.1 -> new\n",
        ),
    ];
    for (first, begins) in orders {
        let gate = OneAfterAnother {
            first,
            seen: Seen::nothing(),
        };
        let (status, sink) = traced(&rt, rt.alloc(), script.as_bytes(), 10_000, &gate)?;
        assert_eq!(rt; status, Status::Done);
        assert!(rt;
            !gate.seen.alone.load(Ordering::SeqCst),
            "site {first} first"
        );
        assert!(rt;
            sink.held().starts_with(begins.as_bytes()),
            "site {first} first"
        );
    }
    Ok(())
}
