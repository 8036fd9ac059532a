//! What is printed of crashes, and where a disk is full.

use std::alloc::Global;
use std::process::Abort;
use std::test::Fail;
use td_base::{Bytes, Dot, Site};
use td_report::{
    cancel_full_line, crash_full_line, crash_line, del_full_line, flat_full_line, give_full_line,
    ins_full_line,
};

// What is printed of a site. The last number is the length of the journal that fills its disk.
#[derive(Clone, Copy)]
enum Line {
    // So many entries.
    Crash(u64),
    CrashFull(u32),
    // So many of so many.
    InsFull(u32, u32, u32),
    DelFull(u32, u32, u32),
    FlatFull(u32),
    // The proposal of the site with this number.
    CancelFull(u32, u32),
    // The message with this number.
    GiveFull(u64, u32),
}

const LINES: [(u8, Line, &str); 10] = [
    (1, Line::Crash(2), "crash 1 2\n"),
    (1, Line::Crash(3), "crash 1 3\n"),
    (64, Line::Crash(0), "crash 64 0\n"),
    (
        1,
        Line::CrashFull(1_073_741_824),
        "crash 1 full 1073741824\n",
    ),
    (
        2,
        Line::InsFull(1, 3, 1_073_741_820),
        "ins 2 1/3 full 1073741820\n",
    ),
    (
        3,
        Line::DelFull(0, 2, 1_073_741_819),
        "del 3 0/2 full 1073741819\n",
    ),
    (1, Line::FlatFull(1_073_741_818), "flat 1 full 1073741818\n"),
    (
        2,
        Line::CancelFull(7, 1_073_741_817),
        "cancel 2 2.7 full 1073741817\n",
    ),
    (
        2,
        Line::GiveFull(12, 1_073_741_816),
        "give 2 12 full 1073741816\n",
    ),
    (1, Line::GiveFull(1, 5), "give 1 1 full 5\n"),
];

fn printed(alloc: Global, number: u8, line: Line) -> Result<Bytes, Fail> {
    let site = Site::new(number).ok_or("a site")?;
    Ok(match line {
        Line::Crash(entries) => crash_line(alloc, site, entries)?,
        Line::CrashFull(len) => crash_full_line(alloc, site, len)?,
        Line::InsFull(done, all, len) => ins_full_line(alloc, site, done, all, len)?,
        Line::DelFull(done, all, len) => del_full_line(alloc, site, done, all, len)?,
        Line::FlatFull(len) => flat_full_line(alloc, site, len)?,
        Line::CancelFull(seq, len) => {
            let proposal = Dot::new(site, seq).ok_or("a dot")?;
            cancel_full_line(alloc, site, proposal, len)?
        }
        Line::GiveFull(message, len) => give_full_line(alloc, site, message, len)?,
    })
}

fn is_printed(
    rt: &impl Abort,
    alloc: Global,
    number: u8,
    line: Line,
    text: &str,
) -> Result<(), Fail> {
    assert_eq!(rt;
        printed(alloc, number, line)?.as_slice(),
        text.as_bytes(),
        "{text}"
    );
    Ok(())
}

#[test]
fn crashes_and_full_disks_are_told(rt: HostRuntime) -> Result<(), Fail> {
    for (number, line, text) in &LINES {
        is_printed(&rt, rt.alloc(), *number, *line, text)?;
    }
    Ok(())
}
