use std::alloc::Global;
use std::process::Abort;
use std::test::Fail;
use td_script::{LineFault, ShellCommand, read_shell_line};
use td_text::AtomList;

// The clusters of a text between bars, behind a word and an index.
fn told_with(alloc: Global, word: &str, index: u32, atoms: &AtomList) -> Result<String, Fail> {
    let mut text = format!(in alloc; "{word} {index} |")?;
    for atom in atoms.iter() {
        text.push_str(atom.as_str())?;
        text.push_str("|")?;
    }
    Ok(text)
}

// The command, as it is debugged; a text as clusters between bars, a packet as its bytes.
fn told(alloc: Global, command: &ShellCommand) -> Result<String, Fail> {
    match command {
        ShellCommand::Ins { index, atoms } => told_with(alloc, "Ins", *index, atoms),
        ShellCommand::Paste { index, atoms } => told_with(alloc, "Paste", *index, atoms),
        ShellCommand::Take { packet } => Ok(format!(in alloc; "Take {:?}", packet.as_slice())?),
        _ => Ok(format!(in alloc; "{command:?}")?),
    }
}

// What the line says at a site of two, or the kind of its fault.
fn answer(alloc: Global, line: &[u8]) -> Result<String, Fail> {
    match read_shell_line(alloc, 2, line) {
        Ok(Some(command)) => told(alloc, &command),
        Ok(None) => Ok(String::from_str(alloc, "nothing")?),
        Err(LineFault::Faulty(kind)) => Ok(format!(in alloc; "fault {kind}")?),
        Err(LineFault::Memory) => Err("out of memory".into()),
    }
}

const ANSWERS: [(&str, &str); 44] = [
    ("", "nothing"),
    ("# a remark", "nothing"),
    ("ins 7 \"ab\"", "Ins 7 |a|b|"),
    ("ins 0 \"\"", "Ins 0 |"),
    ("paste 0 \"\\n\\\"e\u{301}\"", "Paste 0 |\n|\"|e\u{301}|"),
    ("del 2 3", "Del { index: 2, count: 3 }"),
    ("flat root", "Flat { place: Root }"),
    (
        "flat 2 left",
        "Flat { place: Beside { index: 2, bit: Left } }",
    ),
    (
        "flat 2 right",
        "Flat { place: Beside { index: 2, bit: Right } }",
    ),
    ("flat auto", "FlatAuto"),
    (
        "cancel 2.3",
        "Cancel { proposal: Dot { site: Site { number: 2 }, seq: 3 } }",
    ),
    ("take 00ff5a", "Take [0, 255, 90]"),
    ("send 1", "Send { from: 1 }"),
    ("show", "Show"),
    ("tree", "Tree"),
    ("count", "Count"),
    // faults by themselves
    ("move", "fault word"),
    ("Show", "fault word"),
    ("show ", "fault end"),
    ("show 1", "fault end"),
    ("ins 0 \"a", "fault quote"),
    ("ins 0 \"a\" ", "fault end"),
    ("ins x \"a\"", "fault number"),
    ("ins 0", "fault end"),
    ("del 0 x", "fault number"),
    ("del 0", "fault end"),
    ("flat", "fault end"),
    ("flat 0 up", "fault word"),
    ("flat x", "fault number"),
    ("flat auto 1", "fault end"),
    ("cancel 3.1", "fault dot"),
    ("take", "fault end"),
    ("take 0", "fault number"),
    ("take 0F", "fault number"),
    ("take 0g", "fault number"),
    ("take 00 ff", "fault end"),
    ("send x", "fault number"),
    ("send 01", "fault number"),
    // what other languages have
    ("sites 2", "fault word"),
    ("give 1 1", "fault word"),
    ("settle", "fault word"),
    ("crash 1 1 0 0 \"x\"", "fault word"),
    // each rule where a later one applies too
    ("move\u{1}", "fault bytes"),
    ("flat x up", "fault number"),
];

fn is_answered(rt: &impl Abort, alloc: Global, line: &str, wanted: &str) -> Result<(), Fail> {
    let answer = answer(alloc, line.as_bytes())?;
    assert_eq!(rt; answer.as_str(), wanted, "at {line:?}");
    Ok(())
}

#[test]
fn a_line_of_a_shell_is_read(rt: HostRuntime) -> Result<(), Fail> {
    for (line, wanted) in &ANSWERS {
        is_answered(&rt, rt.alloc(), line, wanted)?;
    }
    Ok(())
}

// So many letters behind `#`.
fn remark(alloc: Global, letters: u32) -> Result<String, Fail> {
    let mut line = String::from_str(alloc, "#")?;
    for _ in 0..letters {
        line.push_str("x")?;
    }
    Ok(line)
}

#[test]
fn a_line_of_a_shell_that_is_too_long_is_refused(rt: HostRuntime) -> Result<(), Fail> {
    for (letters, wanted) in [(65_535, "nothing"), (65_536, "fault long")] {
        let line = remark(rt.alloc(), letters)?;
        is_answered(&rt, rt.alloc(), line.as_str(), wanted)?;
    }
    Ok(())
}
