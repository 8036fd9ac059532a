use rand_core::utils::NextWord;
use rand_pcg::Pcg32;
use std::alloc::Global;
use std::fmt::Write;
use std::process::Abort;
use std::test::Fail;
use td_gen::{MAX_SIZE, script_of};
use td_script::Command;
use td_text::AtomList;

#[test]
fn the_words_are_those_of_pcg32(rt: HostRuntime) {
    let mut words = Pcg32::new(42, 54);
    for word in [
        0xa15c02b7, 0x7b47f409, 0xba1d3330, 0x83d2f293, 0xbfa4784b, 0xcbed606e,
    ] {
        assert_eq!(rt; words.next_word(), word);
    }
}

// The commands that a script may have, as they are written in it.
fn line_of(alloc: Global, command: &Command) -> Result<String, Fail> {
    let mut line = String::new(alloc);
    match command {
        Command::Sites { n } => write!(line, "sites {n}")?,
        Command::Ins { site, index, atoms } => {
            let site = site.number();
            write!(line, "ins {site} {index} ")?;
            push_text(&mut line, atoms)?;
        }
        Command::Del { site, index, count } => {
            let site = site.number();
            write!(line, "del {site} {index} {count}")?;
        }
        Command::Flat { site, .. } => {
            let site = site.number();
            write!(line, "flat {site}")?;
        }
        Command::Settle => line.push_str("settle")?,
        _ => line.push_str("?")?,
    }
    Ok(line)
}

fn push_text(line: &mut String, atoms: &AtomList) -> Result<(), Fail> {
    for atom in atoms.iter() {
        line.push_str(str::from_utf8(atom.bytes()).unwrap())?;
    }
    Ok(())
}

// What a script has: how many commands, and some of them by their places.
struct Expected {
    size: u32,
    number: u64,
    commands: usize,
    lines: &'static [(usize, &'static str)],
}

// The lines of sizes 0 and 3 were worked out by hand; the others come from another program for the same rule.
const SCRIPTS: [Expected; 4] = [
    Expected {
        size: 0,
        number: 7,
        commands: 2,
        lines: &[(0, "sites 3"), (1, "settle")],
    },
    Expected {
        size: 3,
        number: 42,
        commands: 5,
        lines: &[
            (0, "sites 3"),
            (1, "ins 1 0 w"),
            (2, "ins 2 0 a"),
            (3, "ins 3 0 x"),
            (4, "settle"),
        ],
    },
    Expected {
        size: 31,
        number: 7,
        commands: 34,
        lines: &[
            (4, "del 1 0 1"),
            (22, "ins 1 15 yzabcdef"),
            (30, "ins 3 1 m"),
            (31, "settle"),
            (32, "del 1 43 1"),
            (33, "settle"),
        ],
    },
    Expected {
        size: 301,
        number: 7,
        commands: 315,
        lines: &[
            (59, "ins 1 60 b"),
            (299, "del 2 199 1"),
            (310, "settle"),
            (311, "flat 2"),
            (312, "settle"),
            (313, "ins 1 139 f"),
            (314, "settle"),
        ],
    },
];

fn is_generated(rt: &impl Abort, alloc: Global, expected: &Expected) -> Result<(), Fail> {
    assert!(rt; expected.size <= MAX_SIZE);
    let script = script_of(alloc, expected.size, expected.number)?;
    let commands = script.commands.as_slice();
    assert_eq!(rt; script.sites, 3);
    assert_eq!(rt; commands.len(), expected.commands);
    for (place, line) in expected.lines {
        assert!(rt; *place < commands.len());
        let found = line_of(alloc, &commands[*place])?;
        assert_eq!(rt; found.as_str(), *line, "at {place}");
    }
    Ok(())
}

#[test]
fn a_size_and_a_number_give_one_script(rt: HostRuntime) -> Result<(), Fail> {
    for expected in &SCRIPTS {
        is_generated(&rt, rt.alloc(), expected)?;
    }
    Ok(())
}
