use std::alloc::Global;
use std::process::Abort;
use std::test::Fail;
use td_script::{Command, Script, ScriptFault, read_script};
use td_text::AtomList;

// The line and the kind of the fault, as they are printed, or how many commands were read.
fn answer(alloc: Global, bytes: &[u8]) -> Result<String, Fail> {
    match read_script(alloc, bytes) {
        Ok(script) => {
            let count = script.commands.as_slice().len();
            Ok(format!(in alloc; "{count} commands")?)
        }
        Err(ScriptFault::Fault { line, kind }) => Ok(format!(in alloc; "fault {line} {kind}")?),
        Err(ScriptFault::Memory) => Err("out of memory".into()),
    }
}

const FAULTS: [(&str, &str); 58] = [
    // faults by themselves
    ("sites 65\n", "fault 1 sites"),
    ("show 1\n", "fault 1 sites"),
    ("sites 2\nshow 3\n", "fault 2 site"),
    ("sites 2\nshow 3", "fault 2 site"),
    ("sites 2\nshow\n", "fault 2 end"),
    ("sites 2\nshow 01\n", "fault 2 number"),
    ("sites 1\nins 1 0 \"a\n", "fault 2 quote"),
    ("sites 1\nmove 1\n", "fault 2 word"),
    ("sites 1\nshow 1 \n", "fault 2 end"),
    ("sites 1\nshow 1000000000\n", "fault 2 number"),
    ("sites 1\nshow 1\r\n", "fault 2 bytes"),
    ("sites 1\nins 1 0 \"\\t\"\n", "fault 2 quote"),
    ("sites 1\nflat 1 x\n", "fault 2 number"),
    ("sites 1\nflat 1 0 up\n", "fault 2 word"),
    ("sites 1\nflat 1 root 0\n", "fault 2 end"),
    ("sites 2\ncancel 1 3.1\n", "fault 2 dot"),
    ("sites 2\ncancel 1 1.0\n", "fault 2 dot"),
    ("sites 2\ncancel 1 1.65536\n", "fault 2 dot"),
    ("sites 2\ncancel 1 1.01\n", "fault 2 dot"),
    ("sites 2\ncancel 1 1\n", "fault 2 dot"),
    ("sites 2\nflat 1 Auto\n", "fault 2 number"),
    ("sites 2\nmark 1 32 0 1\n", "fault 2 number"),
    ("sites 2\nunmark 1 x 0 1\n", "fault 2 number"),
    ("sites 2\nmark 1 0 0\n", "fault 2 end"),
    ("sites 2\nmeet 1 3\n", "fault 2 site"),
    ("sites 2\nmeet 1 x\n", "fault 2 number"),
    ("sites 2\nmeet 1\n", "fault 2 end"),
    ("sites 2\nmarks 1 0\n", "fault 2 end"),
    (
        "sites 17\nins 1 0 \"ab\"\nsettle\ndel 2 0 65534\n",
        "fault 4 size",
    ),
    ("sites 9\ndel 1 0 131072\nflat 1 root\n", "fault 3 size"),
    ("sites 9\ndel 1 0 131072\nflat 1 auto\n", "fault 3 size"),
    // an earlier line, also behind lines that say nothing
    ("\n# a remark\nsites 1\nmove\nshow 2\n", "fault 4 word"),
    // each rule where a later one applies too
    ("#\u{7f}\n", "fault 1 bytes"),
    ("move\u{1}\n", "fault 1 bytes"),
    ("move 1\n", "fault 1 word"),
    ("mark 1 32\n", "fault 1 sites"),
    ("show\n", "fault 1 sites"),
    ("sites 1\nsites 0\n", "fault 2 sites"),
    ("sites 0 1\n", "fault 1 sites"),
    ("sites 2\nins 3 x\n", "fault 2 site"),
    ("sites 2\nins 1 x\n", "fault 2 number"),
    ("sites 2\nins 1  \"a\"\n", "fault 2 number"),
    ("sites 2\nins 1 0 \n", "fault 2 end"),
    ("sites 2\nins 1 0 x y\n", "fault 2 quote"),
    ("sites 2\nins 1 0 \"a\" \n", "fault 2 end"),
    ("flat 1 auto\n", "fault 1 sites"),
    ("sites 2\nflat 3 auto\n", "fault 2 site"),
    ("sites 2\nflat 1 auto 0\n", "fault 2 end"),
    ("sites 2\nmark 3 32 x\n", "fault 2 site"),
    ("sites 2\nmark 1 32 x\n", "fault 2 number"),
    ("sites 2\nmeet 3 x\n", "fault 2 site"),
    ("sites 17\ndel 1 0 65536 \n", "fault 2 end"),
    // none
    ("", "0 commands"),
    ("#\n\n", "0 commands"),
    ("sites 8\ndel 1 0 999999999\n", "2 commands"),
    ("sites 16\npaste 1 0 \"ab\"\ndel 1 0 131070", "3 commands"),
    ("sites 64\nshow 64\ncancel 64 64.65535\n", "3 commands"),
    (
        "sites 9\ndel 1 0 131072\nmark 1 31 0 999999999\nunmark 9 0 0 0\nmeet 9 9\n",
        "5 commands",
    ),
];

fn is_answered(rt: &impl Abort, alloc: Global, script: &str, wanted: &str) -> Result<(), Fail> {
    let answer = answer(alloc, script.as_bytes())?;
    assert_eq!(rt; answer.as_str(), wanted, "at {script:?}");
    Ok(())
}

#[test]
fn the_first_faulty_line_is_named_with_its_first_fault(rt: HostRuntime) -> Result<(), Fail> {
    for (script, wanted) in &FAULTS {
        is_answered(&rt, rt.alloc(), script, wanted)?;
    }
    Ok(())
}

// The script, then so many copies of a byte, then LF.
fn filled(alloc: Global, front: &str, byte: u8, count: usize) -> Result<Vec<u8>, Fail> {
    let mut bytes = Vec::from_slice(alloc, front.as_bytes())?;
    for _ in 0..count {
        bytes.push(byte)?;
    }
    bytes.push(b'\n')?;
    Ok(bytes)
}

const LARGE: [(&str, u8, usize, &str); 10] = [
    ("move\n", b'\n', 1_048_570, "fault 1 word"),
    ("move\n", b'\n', 1_048_571, "fault 0 size"),
    ("#", b'x', 65_535, "0 commands"),
    ("#", b'x', 65_536, "fault 1 long"),
    ("#", 0xff, 65_536, "fault 1 long"),
    ("#", 0xff, 65_535, "fault 1 bytes"),
    ("sites 17\n", b'\n', 32_758, "1 commands"),
    ("sites 17\n", b'\n', 32_759, "fault 1 size"),
    ("sites 17 \n", b'\n', 32_759, "fault 1 size"),
    ("sites 16\n", b'\n', 32_759, "1 commands"),
];

#[test]
fn scripts_and_lines_that_are_too_large_are_refused(rt: HostRuntime) -> Result<(), Fail> {
    for (front, byte, count, wanted) in &LARGE {
        let bytes = filled(rt.alloc(), front, *byte, *count)?;
        let answer = answer(rt.alloc(), &bytes)?;
        assert_eq!(rt; answer.as_str(), *wanted, "at {front:?} and {count}");
    }
    Ok(())
}

fn read(alloc: Global, script: &str) -> Result<Script, Fail> {
    match read_script(alloc, script.as_bytes()) {
        Ok(script) => Ok(script),
        Err(_) => Err("a script".into()),
    }
}

const COMMANDS: [(&str, &str); 16] = [
    (
        "del 1 2 3",
        "Del { site: Site { number: 1 }, index: 2, count: 3 }",
    ),
    (
        "flat 1 root",
        "Flat { site: Site { number: 1 }, place: Root }",
    ),
    (
        "flat 1 2 left",
        "Flat { site: Site { number: 1 }, place: Beside { index: 2, bit: Left } }",
    ),
    (
        "flat 1 2 right",
        "Flat { site: Site { number: 1 }, place: Beside { index: 2, bit: Right } }",
    ),
    (
        "cancel 1 2.3",
        "Cancel { site: Site { number: 1 }, proposal: Dot { site: Site { number: 2 }, seq: 3 } }",
    ),
    ("flat 1 auto", "FlatAuto { site: Site { number: 1 } }"),
    ("give 1 2", "Give { site: Site { number: 1 }, number: 2 }"),
    ("give 1 all", "GiveAll { site: Site { number: 1 } }"),
    ("settle", "Settle"),
    ("show 1", "Show { site: Site { number: 1 } }"),
    ("tree 1", "Tree { site: Site { number: 1 } }"),
    ("count 1", "Count { site: Site { number: 1 } }"),
    (
        "mark 1 31 2 3",
        "Mark { site: Site { number: 1 }, add: true, name: 31, index: 2, count: 3 }",
    ),
    (
        "unmark 1 0 2 3",
        "Mark { site: Site { number: 1 }, add: false, name: 0, index: 2, count: 3 }",
    ),
    (
        "meet 1 2",
        "Meet { site: Site { number: 1 }, other: Site { number: 2 } }",
    ),
    ("marks 1", "Marks { site: Site { number: 1 } }"),
];

// The commands of a script with this line, as they are debugged.
fn debugged(alloc: Global, line: &str) -> Result<String, Fail> {
    let text = format!(in alloc; "sites 2\n{line}\n")?;
    let script = read(alloc, &text)?;
    Ok(format!(in alloc; "{:?}", script.commands.as_slice())?)
}

fn is_read(rt: &impl Abort, alloc: Global, line: &str, wanted: &str) -> Result<(), Fail> {
    let commands = debugged(alloc, line)?;
    let wanted = format!(in alloc; "[Sites {{ n: 2 }}, {wanted}]")?;
    assert_eq!(rt; commands.as_str(), wanted.as_str(), "at {line:?}");
    Ok(())
}

#[test]
fn each_command_is_read(rt: HostRuntime) -> Result<(), Fail> {
    for (line, wanted) in &COMMANDS {
        is_read(&rt, rt.alloc(), line, wanted)?;
    }
    Ok(())
}

const CLUSTERS: [&str; 8] = [
    "a",
    "\n",
    "\"",
    "\\",
    " ",
    "e\u{301}",
    "\u{1f469}\u{200d}\u{1f469}\u{200d}\u{1f467}",
    "!",
];

fn are_clusters(rt: &impl Abort, atoms: &AtomList) {
    assert_eq!(rt; atoms.len() as usize, CLUSTERS.len());
    for (atom, wanted) in atoms.iter().zip(&CLUSTERS) {
        assert_eq!(rt; atom.bytes(), wanted.as_bytes(), "at {wanted:?}");
    }
}

fn inserts_clusters(rt: &impl Abort, script: &Script) -> Result<(), Fail> {
    match script.commands.as_slice() {
        [
            _,
            Command::Ins {
                index: 7,
                atoms,
                ..
            },
        ] => are_clusters(rt, atoms),
        _ => return Err("an insert at 7".into()),
    }
    Ok(())
}

#[test]
fn the_text_of_an_insert_is_cut_into_clusters(rt: HostRuntime) -> Result<(), Fail> {
    let script = read(
        rt.alloc(),
        "sites 1\nins 1 7 \"a\\n\\\"\\\\ e\u{301}\u{1f469}\u{200d}\u{1f469}\u{200d}\u{1f467}!\"\n",
    )?;
    inserts_clusters(&rt, &script)
}
