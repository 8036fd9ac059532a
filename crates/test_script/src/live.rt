use std::alloc::Global;
use std::process::Abort;
use std::test::Fail;
use td_base::Site;
use td_script::{EditorLine, EditorLines, Homes, Live, Loss, NO_LOSS, ScriptFault, read_live};

// The line and the kind of the fault, as they are printed, or how many editors were read.
fn answer(alloc: Global, bytes: &[u8]) -> Result<String, Fail> {
    match read_live(alloc, bytes) {
        Ok(live) => Ok(format!(in alloc; "{} editors", live.homes.len())?),
        Err(ScriptFault::Fault { line, kind }) => Ok(format!(in alloc; "fault {line} {kind}")?),
        Err(ScriptFault::Memory) => Err("out of memory".into()),
    }
}

const FAULTS: [(&str, &str); 46] = [
    // faults by themselves
    ("move\n", "fault 1 word"),
    ("editor 1\n", "fault 1 sites"),
    ("turns 5\n", "fault 1 sites"),
    ("sites 65\n", "fault 1 sites"),
    ("sites 1\nturns 100001\n", "fault 2 turns"),
    ("sites 1\nturns 0\nturns 0\n", "fault 3 turns"),
    ("sites 1\nloss 0 0\nloss 0 0\n", "fault 3 loss"),
    ("sites 1\nloss 1\n", "fault 2 end"),
    ("sites 1\nloss 1 x\n", "fault 2 number"),
    ("sites 2\neditor 3\n", "fault 2 site"),
    ("sites 1\nins 1 0 \"a\"\n", "fault 2 editor"),
    ("sites 1\neditor 1\nlook 2\n", "fault 3 editor"),
    ("sites 1\neditor 1\nlook 0\n", "fault 3 editor"),
    ("sites 1\nlook 1\neditor 1\n", "fault 2 editor"),
    ("sites 1\neditor 1\nlook\n", "fault 3 end"),
    ("sites 1\neditor 1\nlook 1 \n", "fault 3 end"),
    ("sites 1\neditor 1\nins 1 0 \"a\n", "fault 3 quote"),
    ("sites 1\neditor 1\nflat 1 0 up\n", "fault 3 word"),
    ("sites 1\neditor 1\ncancel 1 2.1\n", "fault 3 dot"),
    ("sites 1\neditor 1\ndel 1 0 65536\n", "fault 3 calls"),
    // what the language of play alone has
    ("sites 1\neditor 1\nflat 1 auto\n", "fault 3 number"),
    ("sites 1\neditor 1\nshow 1\n", "fault 3 word"),
    ("sites 1\neditor 1\ngive 1 all\n", "fault 3 word"),
    ("sites 1\neditor 1\nsettle\n", "fault 3 word"),
    ("sites 1\neditor 1\nmark 1 0 0 1\n", "fault 3 word"),
    // each rule where a later one applies too
    ("sites 1\nsites 0\n", "fault 2 sites"),
    ("turns 0\nturns x\n", "fault 1 sites"),
    ("sites 1\nturns 0\nturns x\n", "fault 3 turns"),
    ("sites 1\nloss 0 0\nloss\n", "fault 3 loss"),
    ("sites 1\nturns 100001 1\n", "fault 2 turns"),
    ("sites 1\nins 1 x\n", "fault 2 editor"),
    ("sites 1\neditor 1\nins x x\n", "fault 3 number"),
    ("sites 17\neditor 1\ndel 1 0 65536 \n", "fault 3 end"),
    ("sites 17\neditor 1\ndel 1 0 65536\n", "fault 3 size"),
    ("sites 16\neditor 1\ndel 1 0 65536\n", "fault 3 calls"),
    // the sums
    (
        "sites 1\neditor 1\npaste 1 0 \"ab\"\nins 1 0 \"c\"\ndel 1 0 65531\nflat 1 root\nlook 1\ncancel 1 1.1\n",
        "fault 8 calls",
    ),
    (
        "sites 17\neditor 1\neditor 2\ndel 1 0 65534\ndel 2 0 1\ncancel 2 1.1\n",
        "fault 6 size",
    ),
    (
        "sites 9\neditor 1\neditor 2\neditor 3\neditor 4\neditor 5\ndel 1 0 65535\ndel 2 0 65535\n\
             del 3 0 65535\ndel 4 0 65535\ndel 5 0 4\nlook 5\nflat 5 root\n",
        "fault 13 calls",
    ),
    // none
    (
        "sites 2\nturns 100000\neditor 1\neditor 2\nins 1 0 \"a\"\nins 2 0 \"b\"\n",
        "2 editors",
    ),
    (
        "sites 3\nturns 100000\neditor 1\neditor 2\neditor 3\nins 1 0 \"a\"\nins 2 0 \"b\"\nins 3 0 \"c\"\n",
        "3 editors",
    ),
    ("", "0 editors"),
    ("# a remark\n", "0 editors"),
    ("sites 64\n", "0 editors"),
    (
        "sites 1\nturns 100000\nloss 0 999999999\neditor 1",
        "1 editors",
    ),
    ("sites 17\neditor 17\ndel 1 0 65535\nlook 1\n", "1 editors"),
    (
        "sites 16\neditor 1\neditor 2\neditor 3\ndel 1 0 65535\ndel 2 0 65535\ndel 3 0 65535\n",
        "3 editors",
    ),
];

fn is_answered(rt: &impl Abort, alloc: Global, script: &str, wanted: &str) -> Result<(), Fail> {
    let answer = answer(alloc, script.as_bytes())?;
    assert_eq!(rt; answer.as_str(), wanted, "at {script:?}");
    Ok(())
}

#[test]
fn the_first_fault_of_a_live_script_is_told(rt: HostRuntime) -> Result<(), Fail> {
    for (script, wanted) in &FAULTS {
        is_answered(&rt, rt.alloc(), script, wanted)?;
    }
    Ok(())
}

// The script, then so many copies of a text, then another.
fn repeated(
    alloc: Global,
    front: &str,
    part: &str,
    count: u32,
    back: &str,
) -> Result<String, Fail> {
    let mut script = String::from_str(alloc, front)?;
    for _ in 0..count {
        script.push_str(part)?;
    }
    script.push_str(back)?;
    Ok(script)
}

const LARGE: [(&str, &str, u32, &str, &str); 10] = [
    ("move", "\n", 262_140, "", "fault 1 word"),
    ("move", "\n", 262_141, "", "fault 0 size"),
    ("sites 17\n", "\n", 32_759, "", "0 editors"),
    ("sites 17\n", "\n", 32_760, "", "fault 1 size"),
    ("sites 16\n", "\n", 32_760, "", "0 editors"),
    (
        "sites 3\nturns 1000\nloss 3 2\neditor 1\neditor 1\neditor 2\neditor 2\neditor 3\neditor 3\n",
        "ins 1 0 \"a\"\nlook 1\nins 4 0 \"b\"\nlook 4\nins 6 0 \"c\"\nlook 6\n",
        20,
        "flat 1 root\nflat 6 root\n",
        "6 editors",
    ),
    ("sites 1\n", "editor 1\n", 64, "", "64 editors"),
    ("sites 1\n", "editor 1\n", 64, "look 64\n", "64 editors"),
    ("sites 1\n", "editor 1\n", 65, "", "fault 66 editor"),
    (
        "sites 1\n",
        "editor 1\n",
        64,
        "editor x\n",
        "fault 66 editor",
    ),
];

#[test]
fn live_scripts_that_are_too_large_are_refused(rt: HostRuntime) -> Result<(), Fail> {
    for (front, part, count, back, wanted) in &LARGE {
        let script = repeated(rt.alloc(), front, part, *count, back)?;
        let answer = answer(rt.alloc(), script.as_bytes())?;
        assert_eq!(rt; answer.as_str(), *wanted, "at {front:?} and {count}");
    }
    Ok(())
}

const FIXED: &str =
    "sites 2\nturns 0\neditor 1\nins 1 0 \"ab\"\nflat 1 root\nins 1 0 \"x\"\nlook 1\n";

fn read(alloc: Global, script: &str) -> Result<Live, Fail> {
    match read_live(alloc, script.as_bytes()) {
        Ok(live) => Ok(live),
        Err(_) => Err("a live script".into()),
    }
}

// The lines of the editors, as they are debugged.
fn lines(alloc: Global, live: &Live) -> Result<String, Fail> {
    let mut text = String::new(alloc);
    for lines in live.lines.as_slice() {
        let lines = format!(in alloc; "{:?}\n", lines.as_slice())?;
        text.push_str(&lines)?;
    }
    Ok(text)
}

fn has_lines(rt: &impl Abort, alloc: Global, live: &Live) -> Result<(), Fail> {
    assert_eq!(rt; (live.sites, live.turns), (3, 1000));
    assert_eq!(rt; (live.loss.drop_each, live.loss.double_each), (3, 2));
    let homes = format!(in alloc; "{:?}", live.homes.as_slice())?;
    assert_eq!(rt; homes.as_str(), "[Site { number: 2 }, Site { number: 3 }]");
    assert_eq!(rt;
        lines(alloc, live)?.as_str(),
        "[Look, Flat { place: Root }, Cancel { proposal: Dot { site: Site { number: 3 }, seq: 9 } }]\n\
         [Del { index: 7, count: 8 }, Flat { place: Beside { index: 4, bit: Right } }]\n"
    );
    Ok(())
}

#[test]
fn each_line_stands_with_its_editor(rt: HostRuntime) -> Result<(), Fail> {
    let live = read(
        rt.alloc(),
        "sites 3\nloss 3 2\neditor 2\nlook 1\neditor 3\ndel 2 7 8\nflat 1 root\nflat 2 4 right\ncancel 1 3.9\n",
    )?;
    has_lines(&rt, rt.alloc(), &live)
}

fn inserts_clusters(rt: &impl Abort, lines: &EditorLines) -> Result<(), Fail> {
    assert_eq!(rt; lines.calls(), 4);
    match lines.as_slice() {
        [EditorLine::Ins { index: 0, atoms }, ..] => {
            assert_eq!(rt; atoms.lengths(), [1, 1].as_slice());
            assert_eq!(rt; atoms.bytes(), b"ab".as_slice());
        }
        _ => return Err("an insert at 0".into()),
    }
    Ok(())
}

fn has_one_editor(rt: &impl Abort, live: &Live) -> Result<(), Fail> {
    assert_eq!(rt; (live.sites, live.turns), (2, 0));
    assert_eq!(rt; live.loss, NO_LOSS);
    match live.lines.as_slice() {
        [lines] => inserts_clusters(rt, lines),
        _ => Err("one editor".into()),
    }
}

#[test]
fn the_text_of_an_editors_line_is_cut_into_clusters(rt: HostRuntime) -> Result<(), Fail> {
    let live = read(rt.alloc(), FIXED)?;
    has_one_editor(&rt, &live)
}

#[test]
fn each_front_of_a_live_script_is_read_or_faulty_in_its_last_line(
    rt: HostRuntime,
) -> Result<(), Fail> {
    for place in 0..FIXED.len() {
        let front = &FIXED.as_bytes()[..place];
        let wanted = front.iter().filter(|byte| **byte == b'\n').count() + 1;
        match read_live(rt.alloc(), front) {
            Ok(_) => {}
            Err(ScriptFault::Fault { line, .. }) => assert_eq!(rt; line as usize, wanted),
            Err(ScriptFault::Memory) => return Err("out of memory".into()),
        }
    }
    Ok(())
}

fn one_home(rt: &impl Abort, homes: &mut Homes) -> Result<(), Fail> {
    assert!(rt; homes.is_empty());
    homes.push(Site::new(7).ok_or("a site")?)?;
    assert_eq!(rt; homes.len(), 1);
    Ok(())
}

#[test]
fn lists_of_a_live_script_can_be_made_by_hand(rt: HostRuntime) -> Result<(), Fail> {
    let mut homes = Homes::new(rt.alloc());
    one_home(&rt, &mut homes)?;
    let mut lines = EditorLines::new(rt.alloc());
    lines.push(EditorLine::Look)?;
    lines.push(EditorLine::Del { index: 0, count: 3 })?;
    assert_eq!(rt; lines.calls(), 3);
    assert_eq!(rt; lines.into_vec().len(), 2);
    let loss = Loss {
        drop_each: 0,
        double_each: 0,
    };
    assert_eq!(rt; loss, NO_LOSS);
    Ok(())
}
