// Kept scripts: sites that crash and come back.
use super::plays::run_of;
use std::alloc::Global;
use std::process::Abort;
use std::test::Fail;
use td_run::Status;

// A kept script, and what it prints.
const SCRIPTS: [(&str, &str); 5] = [
    // a crash keeps the request where the write of the gate is lost and found again, and else loses it
    (
        "sites 1\nins 1 0 \"ab\"\ncrash 1 2 1 0 \"x\"\nshow 1\ncrash 1 4 1 0 \"y\"\ncrash 1 3 2 0 \"z\"\nshow 1\n",
        "ins 1 2/2\ncrash 1 2\nshow 1 \"ab\"\ncrash 1 3\ncrash 1 3\nshow 1 \"yab\"\n",
    ),
    // what a site voted for it still holds when it comes back; a refused request is an entry too
    (
        "sites 2\nins 1 0 \"ab\"\ngive 2 1\ngive 2 2\nflat 1 root\ngive 2 3\ncrash 2 1 0 0 \"x\"\nins 2 0 \"x\"\n\
         crash 2 3 1 0 \"y\"\nshow 2\ngive 1 4\ngive 2 5\ncrash 2 4 257 0 \"z\"\nshow 2\ngive 1 6\nshow 1\n",
        "ins 1 2/2\ngive 2 1 new 0\ngive 2 2 new 0\nflat 1 1.3\ngive 2 3 new 0\nvote 2 1.3 yes\ncrash 2 3\n\
         ins 2 0/1 held 1.3\ncrash 2 5\nshow 2 \"ab\"\ngive 1 4 new 0\ndecide 1 1.3 commit\ngive 2 5 new 0\n\
         crash 2 7\nshow 2 \"zab\"\ngive 1 6 new 0\nshow 1 \"zab\"\n",
    ),
    // the dot of a request that a crash lost is taken again: nobody had heard of it
    (
        "sites 2\ncrash 1 4 0 0 \"x\"\nins 1 0 \"y\"\ngive 2 1\ngive 2 2\nshow 2\n",
        "crash 1 0\nins 1 1/1\ngive 2 1 new 0\ngive 2 2 none\nshow 2 \"y\"\n",
    ),
    // the other commands
    (
        "sites 2\nins 1 0 \"abc\"\ndel 1 1 5\nflat 1 7 left\nflat 1 1 right\ncancel 1 2.1\ncancel 1 1.5\ngive 1 1\n\
         give 2 9\nshow 2\n",
        "ins 1 3/3\ndel 1 2/5 position 1\nflat 1 position 1\nflat 1 position 1\ncancel 1 2.1 notopen\n\
         cancel 1 1.5 notopen\ngive 1 1 stray\ngive 2 9 none\nshow 2 \"\"\n",
    ),
    ("", ""),
];

fn prints(rt: &impl Abort, alloc: Global, script: &str, printed: &str) -> Result<(), Fail> {
    let (status, sink) = run_of(alloc, &["kept"], script.as_bytes())?;
    assert_eq!(rt; status, Status::Done, "at {script:?}");
    assert_eq!(rt; sink.held(), printed.as_bytes(), "at {script:?}");
    Ok(())
}

#[test]
fn kept_scripts_print_their_output(rt: HostRuntime) -> Result<(), Fail> {
    for (script, printed) in &SCRIPTS {
        prints(&rt, rt.alloc(), script, printed)?;
    }
    Ok(())
}

// The number of the disk call that fails, the image that the crash leaves, and whether the request is done.
const CRASHES: [(u32, u32, bool); 16] = [
    (1, 0, false),
    (1, 1, false),
    (1, 2, false),
    (1, 257, false),
    (2, 0, false),
    (2, 1, false),
    (2, 2, false),
    (2, 257, false),
    (3, 0, false),
    (3, 1, true),
    (3, 2, false),
    (3, 257, true),
    (4, 0, false),
    (4, 1, true),
    (4, 2, false),
    (4, 257, true),
];

// Where the request is done, it is an entry more, its message is released, and the other site gets it.
const DONE: &str =
    "ins 1 1/1\ngive 2 1 new 0\ncrash 1 2\nshow 1 \"ax\"\ngive 2 2 new 0\nshow 2 \"ax\"\n";

const LOST: &str =
    "ins 1 1/1\ngive 2 1 new 0\ncrash 1 1\nshow 1 \"a\"\ngive 2 2 none\nshow 2 \"a\"\n";

fn crashes(rt: &impl Abort, alloc: Global, k: u32, image: u32, done: bool) -> Result<(), Fail> {
    let script = format!(in alloc;
        "sites 2\nins 1 0 \"a\"\ngive 2 1\ncrash 1 {k} {image} 1 \"x\"\nshow 1\ngive 2 2\nshow 2\n"
    )?;
    prints(rt, alloc, script.as_str(), if done { DONE } else { LOST })
}

#[test]
fn a_crash_keeps_the_request_or_loses_it(rt: HostRuntime) -> Result<(), Fail> {
    for (k, image, done) in &CRASHES {
        crashes(&rt, rt.alloc(), *k, *image, *done)?;
    }
    Ok(())
}

#[test]
fn a_kept_script_with_a_fault_is_refused(rt: HostRuntime) -> Result<(), Fail> {
    let (status, sink) = run_of(rt.alloc(), &["kept"], b"sites 1\nshow 1\nsettle\n")?;
    assert_eq!(rt; status, Status::Script);
    assert_eq!(rt; sink.held(), &b"fault 3 word\n"[..]);
    Ok(())
}
