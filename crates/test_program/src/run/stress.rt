// Live scripts with many sites and editors: each trace is a possible one, as `check` says, however the threads ran.
use super::live::traced;
use super::verdicts::verdict_on;
use std::alloc::Global;
use std::process::Abort;
use std::sync::Wait;
use std::test::Fail;
use std::thread::Threads;
use td_base::Bytes;
use td_line::Always;
use td_run::Status;

// A live script: its sites, how many editors each has, and how many lines each of these.
#[derive(Clone, Copy)]
struct Plan {
    sites: u32,
    editors: u32,
    lines: u32,
}

fn push(script: &mut Bytes, line: String) -> Result<(), Fail> {
    script.push(line.as_bytes())?;
    Ok(())
}

// The line of the editor. The first half of its lines is done when the first editor proposes to flatten the text.
fn push_line(
    alloc: Global,
    script: &mut Bytes,
    editor: u32,
    line: u32,
    lines: u32,
) -> Result<(), Fail> {
    let index = editor.wrapping_mul(7).wrapping_add(line) % 9;
    push(
        script,
        match line % 5 {
            0 => format!(in alloc; "ins {editor} 0 \"{line}\"\n")?,
            1 => format!(in alloc; "paste {editor} {index} \"pasted\"\n")?,
            2 => format!(in alloc; "look {editor}\n")?,
            3 => format!(in alloc; "ins {editor} {index} \"ab\"\n")?,
            _ => format!(in alloc; "del {editor} {index} 2\n")?,
        },
    )?;
    if line == lines / 2 && editor % 4 == 1 {
        push(script, format!(in alloc; "flat {editor} root\n")?)?;
    }
    Ok(())
}

fn script_of(alloc: Global, plan: Plan) -> Result<Bytes, Fail> {
    let mut script = Bytes::new(alloc);
    push(
        &mut script,
        format!(in alloc; "sites {}\nturns 1000\nloss 3 2\n", plan.sites)?,
    )?;
    for site in 1..=plan.sites {
        for _ in 0..plan.editors {
            push(&mut script, format!(in alloc; "editor {site}\n")?)?;
        }
    }
    for line in 0..plan.lines {
        for editor in 1..=plan.sites.wrapping_mul(plan.editors) {
            push_line(alloc, &mut script, editor, line, plan.lines)?;
        }
    }
    Ok(script)
}

// Runs the script once, with a trace of at most so many bytes, and has that judged. How many lines it has.
fn lines_of<R: Threads + Wait + Copy + Send + Sync + Abort>(
    rt: &R,
    alloc: Global,
    script: &[u8],
    room: u32,
) -> Result<usize, Fail> {
    let (status, sink) = traced(rt, alloc, script, room, &Always)?;
    assert_eq!(rt; status, Status::Done);
    let (status, verdict) = verdict_on(alloc, sink.held())?;
    assert_eq!(rt; status, Status::Done);
    assert_eq!(rt; verdict.as_slice(), b"yes\n".as_slice());
    Ok(sink.held().iter().filter(|byte| **byte == b'\n').count())
}

// Runs the script of a plan so often. Whether each trace is a possible one, with a line for each of the plan's at
// least.
fn all_are_possible<R: Threads + Wait + Copy + Send + Sync + Abort>(
    rt: &R,
    alloc: Global,
    plan: Plan,
    times: u32,
) -> Result<(), Fail> {
    let script = script_of(alloc, plan)?;
    let least = plan
        .sites
        .wrapping_mul(plan.editors)
        .wrapping_mul(plan.lines) as usize;
    for _ in 0..times {
        assert!(rt; lines_of(rt, alloc, script.as_slice(), 4_000_000)? >= least);
    }
    Ok(())
}

#[test]
fn each_trace_of_three_sites_is_possible(rt: HostRuntime) -> Result<(), Fail> {
    let plan = Plan {
        sites: 3,
        editors: 2,
        lines: 40,
    };
    all_are_possible(&rt, rt.alloc(), plan, 20)
}

#[test]
fn each_trace_of_sixteen_sites_is_possible(rt: HostRuntime) -> Result<(), Fail> {
    let plan = Plan {
        sites: 16,
        editors: 4,
        lines: 20,
    };
    all_are_possible(&rt, rt.alloc(), plan, 5)
}

#[test]
fn each_trace_of_sixty_four_sites_is_possible(rt: HostRuntime) -> Result<(), Fail> {
    let plan = Plan {
        sites: 64,
        editors: 1,
        lines: 10,
    };
    all_are_possible(&rt, rt.alloc(), plan, 3)
}

// Eight editors type 16,384 letters each and delete as many: as many calls as a live script may ask for. There is
// always a letter to delete, as each has typed all of its own before.
#[test]
fn as_many_calls_as_there_may_be_are_made(rt: HostRuntime) -> Result<(), Fail> {
    let mut script = Bytes::new(rt.alloc());
    script.push(b"sites 8\nturns 100000\n")?;
    for site in 1..=8 {
        push(&mut script, format!(in rt.alloc(); "editor {site}\n")?)?;
    }
    for editor in 1..=8 {
        push(&mut script, format!(in rt.alloc(); "ins {editor} 0 \"")?)?;
        for _ in 0..2048 {
            script.push(b"abcdefgh")?;
        }
        push(
            &mut script,
            format!(in rt.alloc(); "\"\ndel {editor} 0 16384\n")?,
        )?;
    }
    // each site makes or takes them all
    assert!(rt; lines_of(&rt, rt.alloc(), script.as_slice(), 200_000_000)? >= 8 * 262_144);
    Ok(())
}
