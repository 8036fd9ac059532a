use std::alloc::Global;
use std::process::Abort;
use std::test::Fail;
use td_base::Site;
use td_script::{KeptCommand, KeptCommands, KeptScript, ScriptFault, read_kept};

// The line and the kind of the fault, as they are printed, or how many commands were read.
fn answer(alloc: Global, bytes: &[u8]) -> Result<String, Fail> {
    match read_kept(alloc, bytes) {
        Ok(script) => {
            let count = script.commands.as_slice().len();
            Ok(format!(in alloc; "{count} commands")?)
        }
        Err(ScriptFault::Fault { line, kind }) => Ok(format!(in alloc; "fault {line} {kind}")?),
        Err(ScriptFault::Memory) => Err("out of memory".into()),
    }
}

const ANSWERS: [(&str, &str); 81] = [
    // faults by themselves
    ("sites 65\n", "fault 1 sites"),
    ("show 1\n", "fault 1 sites"),
    ("crash 1 1 0 0 \"x\"\n", "fault 1 sites"),
    ("sites 2\nmove 1\n", "fault 2 word"),
    ("sites 2\nCrash 1 1 0 0 \"x\"\n", "fault 2 word"),
    ("sites 2\nshow 3\n", "fault 2 site"),
    ("sites 2\nshow 1 \n", "fault 2 end"),
    ("sites 2\nins 1 0 \"a\n", "fault 2 quote"),
    ("sites 2\ndel 1 0 x\n", "fault 2 number"),
    ("sites 2\nflat 1 x\n", "fault 2 number"),
    ("sites 2\nflat 1 0 up\n", "fault 2 word"),
    ("sites 2\ncancel 1 3.1\n", "fault 2 dot"),
    ("sites 2\ngive 1 x\n", "fault 2 number"),
    ("sites 2\ncrash 3 1 0 0 \"x\"\n", "fault 2 site"),
    ("sites 2\ncrash x 1 0 0 \"x\"\n", "fault 2 number"),
    ("sites 2\ncrash 1 0 0 0 \"x\"\n", "fault 2 number"),
    ("sites 2\ncrash 1 5 0 0 \"x\"\n", "fault 2 number"),
    ("sites 2\ncrash 1 04 0 0 \"x\"\n", "fault 2 number"),
    ("sites 2\ncrash 1 x 0 0 \"x\"\n", "fault 2 number"),
    ("sites 2\ncrash 1 1 x 0 \"x\"\n", "fault 2 number"),
    ("sites 2\ncrash 1 1 1000000000 0 \"x\"\n", "fault 2 number"),
    ("sites 2\ncrash 1 1 0 x \"x\"\n", "fault 2 number"),
    ("sites 2\ncrash 1 1 0 0 x\n", "fault 2 quote"),
    ("sites 2\ncrash 1 1 0 0 \"x\n", "fault 2 quote"),
    ("sites 2\ncrash 1 1 0 0 \"\\t\"\n", "fault 2 quote"),
    ("sites 2\ncrash 1 1 0 0 \"\"\n", "fault 2 atom"),
    ("sites 2\ncrash 1 1 0 0 \"xy\"\n", "fault 2 atom"),
    ("sites 2\ncrash 1 1 0 0 \"x\" \n", "fault 2 end"),
    ("sites 2\ncrash\n", "fault 2 end"),
    ("sites 2\ncrash 1\n", "fault 2 end"),
    ("sites 2\ncrash 1 1\n", "fault 2 end"),
    ("sites 2\ncrash 1 1 0\n", "fault 2 end"),
    ("sites 2\ncrash 1 1 0 0\n", "fault 2 end"),
    ("sites 2\ncrash 1 1 0 0 \n", "fault 2 end"),
    // what other languages have
    ("sites 2\nflat 1 auto\n", "fault 2 number"),
    ("sites 2\ngive 1 all\n", "fault 2 number"),
    ("sites 2\npaste 1 0 \"a\"\n", "fault 2 word"),
    ("sites 2\nsettle\n", "fault 2 word"),
    ("sites 2\ntree 1\n", "fault 2 word"),
    ("sites 2\ncount 1\n", "fault 2 word"),
    ("sites 2\nmark 1 0 0 1\n", "fault 2 word"),
    ("sites 2\nunmark 1 0 0 1\n", "fault 2 word"),
    ("sites 2\nmeet 1 2\n", "fault 2 word"),
    ("sites 2\nmarks 1\n", "fault 2 word"),
    ("sites 2\neditor 1\n", "fault 2 word"),
    ("sites 2\nlook 1\n", "fault 2 word"),
    // an earlier line, also behind lines that say nothing
    ("\n# a remark\nsites 1\nmove\nshow 2\n", "fault 4 word"),
    // each rule where a later one applies too
    ("#\u{7f}\n", "fault 1 bytes"),
    ("move\u{1}\n", "fault 1 bytes"),
    ("move 1\n", "fault 1 word"),
    ("settle\n", "fault 1 word"),
    ("crash\n", "fault 1 sites"),
    ("sites 1\nsites 0\n", "fault 2 sites"),
    ("sites 0 1\n", "fault 1 sites"),
    ("sites 2\ncrash 3 5 0 0 \"x\"\n", "fault 2 site"),
    ("sites 2\ncrash 1 5\n", "fault 2 number"),
    ("sites 2\ncrash 1 5 0 0 xy\n", "fault 2 number"),
    ("sites 2\ncrash 1 1 x 0 xy\n", "fault 2 number"),
    ("sites 2\ncrash 1 1 0 x xy\n", "fault 2 number"),
    ("sites 2\ncrash 1 1 0 0 \"xy\n", "fault 2 quote"),
    ("sites 2\ncrash 1 1 0 0 x y\n", "fault 2 quote"),
    ("sites 2\ncrash 1 1 0 0 \"xy\" \n", "fault 2 atom"),
    ("sites 2\ncrash 1 1 0 0 \"\" \n", "fault 2 atom"),
    (
        "sites 17\ndel 1 0 65535\ncrash 1 1 0 0 \"x\" \n",
        "fault 3 end",
    ),
    (
        "sites 17\ndel 1 0 65535\ncrash 1 1 0 0 \"xy\"\n",
        "fault 3 atom",
    ),
    // the sums
    (
        "sites 17\ndel 1 0 65535\ncrash 17 1 0 0 \"x\"\n",
        "fault 3 size",
    ),
    (
        "sites 17\nins 1 0 \"ab\"\ngive 2 1\ncrash 1 1 0 0 \"x\"\ndel 2 0 65532\nflat 1 root\n",
        "fault 6 size",
    ),
    ("sites 17\ndel 1 0 65535\ncancel 1 1.1\n", "fault 3 size"),
    (
        "sites 9\ndel 1 0 131072\ncrash 9 4 1 0 \"x\"\n",
        "fault 3 size",
    ),
    // none
    ("", "0 commands"),
    ("#\n\n", "0 commands"),
    ("sites 64", "1 commands"),
    ("sites 64\nshow 64\ncancel 64 64.65535\n", "3 commands"),
    (
        "sites 17\ndel 1 0 65534\ncrash 17 4 999999999 999999999 \"x\"\nshow 17\ngive 17 999999999\n",
        "5 commands",
    ),
    (
        "sites 9\ndel 1 0 131071\ncrash 9 4 1 0 \"x\"\n",
        "3 commands",
    ),
    (
        "sites 8\ndel 1 0 999999999\ncrash 8 1 0 0 \"x\"\n",
        "3 commands",
    ),
    ("sites 1\ncrash 1 1 0 0 \"\\n\"\n", "2 commands"),
    ("sites 1\ncrash 1 2 1 0 \"\\\"\"\n", "2 commands"),
    ("sites 1\ncrash 1 3 2 0 \"\\\\\"\n", "2 commands"),
    ("sites 1\ncrash 1 4 257 0 \" \"\n", "2 commands"),
    (
        "sites 1\nins 1 0 \"ab\"\ncrash 1 2 1 0 \"x\"\nshow 1\ncrash 1 4 1 0 \"y\"\ncrash 1 3 2 0 \"z\"\nshow 1\n",
        "7 commands",
    ),
];

fn is_answered(rt: &impl Abort, alloc: Global, script: &str, wanted: &str) -> Result<(), Fail> {
    let answer = answer(alloc, script.as_bytes())?;
    assert_eq!(rt; answer.as_str(), wanted, "at {script:?}");
    Ok(())
}

#[test]
fn the_first_fault_of_a_kept_script_is_told(rt: HostRuntime) -> Result<(), Fail> {
    for (script, wanted) in &ANSWERS {
        is_answered(&rt, rt.alloc(), script, wanted)?;
    }
    Ok(())
}

// The script, then so many copies of a text, then another.
fn repeated(
    alloc: Global,
    front: &str,
    part: &str,
    count: u32,
    back: &str,
) -> Result<String, Fail> {
    let mut script = String::from_str(alloc, front)?;
    for _ in 0..count {
        script.push_str(part)?;
    }
    script.push_str(back)?;
    Ok(script)
}

const CRASH: &str = "crash 1 4 1 0 \"x\"\n";

const SIZES: [(&str, &str, u32, &str, &str); 14] = [
    // the bytes of the script
    ("move\n", "\n", 1_048_571, "", "fault 1 word"),
    ("move\n", "\n", 1_048_572, "", "fault 0 size"),
    ("sites 17\n", "\n", 32_759, "", "1 commands"),
    ("sites 17\n", "\n", 32_760, "", "fault 1 size"),
    ("sites 17 \n", "\n", 32_760, "", "fault 1 size"),
    ("sites 16\n", "\n", 32_760, "", "1 commands"),
    // the bytes of a line
    ("#", "x", 65_535, "\n", "0 commands"),
    ("#", "x", 65_536, "\n", "fault 1 long"),
    // the bytes of the cluster
    (
        "sites 1\ncrash 1 1 0 0 \"\u{e9}",
        "\u{301}",
        31,
        "\"\n",
        "2 commands",
    ),
    (
        "sites 1\ncrash 1 1 0 0 \"e",
        "\u{301}",
        32,
        "\"\n",
        "fault 2 atom",
    ),
    // the crashes
    ("sites 1\n", CRASH, 1000, "show 1\n", "1002 commands"),
    ("sites 1\n", CRASH, 1001, "", "fault 1002 size"),
    (
        "sites 1\n",
        CRASH,
        1000,
        "crash 1 4 1 0 \"x\" \n",
        "fault 1002 end",
    ),
    ("sites 17\n", CRASH, 1001, "", "fault 1002 size"),
];

#[test]
fn kept_scripts_that_are_too_large_are_refused(rt: HostRuntime) -> Result<(), Fail> {
    for (front, part, count, back, wanted) in &SIZES {
        let script = repeated(rt.alloc(), front, part, *count, back)?;
        let answer = answer(rt.alloc(), script.as_bytes())?;
        assert_eq!(rt; answer.as_str(), *wanted, "at {front:?} and {count}");
    }
    Ok(())
}

fn read(alloc: Global, script: &str) -> Result<KeptScript, Fail> {
    match read_kept(alloc, script.as_bytes()) {
        Ok(script) => Ok(script),
        Err(_) => Err("a kept script".into()),
    }
}

// The command, as it is debugged; its text as clusters between bars.
fn told(alloc: Global, command: &KeptCommand) -> Result<String, Fail> {
    match command {
        KeptCommand::Ins { site, index, atoms } => {
            let mut text = format!(in alloc; "Ins {} {index} |", site.number())?;
            for atom in atoms.iter() {
                text.push_str(atom.as_str())?;
                text.push_str("|")?;
            }
            Ok(text)
        }
        KeptCommand::Crash {
            site,
            k,
            choice,
            index,
            atom,
        } => Ok(format!(in alloc;
            "Crash {} {k} {choice} {index} |{}|",
            site.number(),
            atom.as_str()
        )?),
        _ => Ok(format!(in alloc; "{command:?}")?),
    }
}

// The second command of the script that has this line behind `sites`.
fn second_told(alloc: Global, line: &str) -> Result<String, Fail> {
    let script = format!(in alloc; "sites 3\n{line}\n")?;
    let script = read(alloc, script.as_str())?;
    let [KeptCommand::Sites { n: 3 }, command] = script.commands.as_slice() else {
        return Err("sites and a command".into());
    };
    told(alloc, command)
}

fn is_told(rt: &impl Abort, alloc: Global, line: &str, wanted: &str) -> Result<(), Fail> {
    let told = second_told(alloc, line)?;
    assert_eq!(rt; told.as_str(), wanted, "at {line:?}");
    Ok(())
}

const COMMANDS: [(&str, &str); 14] = [
    ("ins 1 7 \"ab\"", "Ins 1 7 |a|b|"),
    (
        "ins 2 0 \"\\n\\\"\\\\ e\u{301}\"",
        "Ins 2 0 |\n|\"|\\| |e\u{301}|",
    ),
    ("ins 3 0 \"\"", "Ins 3 0 |"),
    (
        "del 1 2 3",
        "Del { site: Site { number: 1 }, index: 2, count: 3 }",
    ),
    (
        "flat 1 root",
        "Flat { site: Site { number: 1 }, place: Root }",
    ),
    (
        "flat 1 2 left",
        "Flat { site: Site { number: 1 }, place: Beside { index: 2, bit: Left } }",
    ),
    (
        "flat 1 2 right",
        "Flat { site: Site { number: 1 }, place: Beside { index: 2, bit: Right } }",
    ),
    (
        "cancel 1 2.3",
        "Cancel { site: Site { number: 1 }, proposal: Dot { site: Site { number: 2 }, seq: 3 } }",
    ),
    ("give 1 2", "Give { site: Site { number: 1 }, number: 2 }"),
    ("show 1", "Show { site: Site { number: 1 } }"),
    ("crash 3 2 1 7 \"x\"", "Crash 3 2 1 7 |x|"),
    ("crash 1 3 257 0 \"\\\"\"", "Crash 1 3 257 0 |\"|"),
    (
        "crash 1 4 999999999 5 \"\\n\"",
        "Crash 1 4 999999999 5 |\n|",
    ),
    (
        "crash 1 1 0 999999999 \"\u{1f469}\u{200d}\u{1f467}\"",
        "Crash 1 1 0 999999999 |\u{1f469}\u{200d}\u{1f467}|",
    ),
];

#[test]
fn each_command_of_a_kept_script_is_read(rt: HostRuntime) -> Result<(), Fail> {
    for (line, wanted) in &COMMANDS {
        is_told(&rt, rt.alloc(), line, wanted)?;
    }
    Ok(())
}

#[test]
fn commands_of_a_kept_script_can_be_listed_by_hand(rt: HostRuntime) -> Result<(), Fail> {
    let site = Site::new(7).ok_or("a site")?;
    let mut commands = KeptCommands::new(rt.alloc());
    commands.push(KeptCommand::Sites { n: 7 })?;
    commands.push(KeptCommand::Show { site })?;
    let listed = format!(in rt.alloc(); "{:?}", commands.as_slice())?;
    assert_eq!(rt;
        listed.as_str(),
        "[Sites { n: 7 }, Show { site: Site { number: 7 } }]"
    );
    Ok(())
}
