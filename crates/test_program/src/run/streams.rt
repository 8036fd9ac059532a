// Inputs and outputs in pieces, and devices that fail.
use super::plays::plain_words_of;
use std::alloc::Global;
use std::test::Fail;
use td_io::{MemSink, MemSource, ReadSource, WriteSink};
use td_run::{Status, run_plain};

// Two sites that type into one gap, and what they print.
const SCRIPT: &str = r#"sites 2
ins 1 0 "ac"
settle
ins 1 1 "X"
ins 2 1 "Y"
settle
show 2
"#;

const OUTPUT: &str = r#"ins 1 2/2
settle 2
ins 1 1/1
ins 2 1/1
settle 2
show 2 "aXYc"
"#;

// Plays it in pieces of one byte, the listed calls failing.
fn played(alloc: Global, read_fails: &[u64], put_fails: &[u64]) -> Result<(Status, MemSink), Fail> {
    let play = plain_words_of(alloc, &["play"])?;
    let mut source = MemSource::pieces(alloc, SCRIPT.as_bytes(), 1, read_fails)?;
    let mut sink = MemSink::pieces(alloc, 1000, 1, put_fails)?;
    let status = run_plain(alloc, &play, &mut source, &mut sink);
    Ok((status, sink))
}

#[test]
fn pieces_make_no_difference(rt: HostRuntime) -> Result<(), Fail> {
    let (status, sink) = played(rt.alloc(), &[], &[])?;
    assert_eq!(rt; status, Status::Done);
    assert_eq!(rt; sink.held(), OUTPUT.as_bytes());
    Ok(())
}

#[test]
fn a_reader_and_a_writer_of_std_serve_too(rt: HostRuntime) -> Result<(), Fail> {
    let play = plain_words_of(rt.alloc(), &["play"])?;
    let mut held = Vec::new(rt.alloc());
    let mut source = ReadSource::new(SCRIPT.as_bytes());
    let mut sink = WriteSink::new(&mut held);
    let status = run_plain(rt.alloc(), &play, &mut source, &mut sink);
    assert_eq!(rt; status, Status::Done);
    assert_eq!(rt; held.as_slice(), OUTPUT.as_bytes());
    Ok(())
}

#[test]
fn a_source_that_fails_is_told(rt: HostRuntime) -> Result<(), Fail> {
    for call in 1..=SCRIPT.len() as u64 + 1 {
        let (status, sink) = played(rt.alloc(), &[call], &[])?;
        assert_eq!(rt; status.number(), 4, "at {call}");
        assert_eq!(rt; sink.held().len(), 0, "at {call}");
    }
    Ok(())
}

#[test]
fn a_sink_that_fails_has_a_front(rt: HostRuntime) -> Result<(), Fail> {
    for call in 1..=OUTPUT.len() {
        let (status, sink) = played(rt.alloc(), &[], &[call as u64])?;
        assert_eq!(rt; status.number(), 5, "at {call}");
        assert_eq!(rt; sink.held(), &OUTPUT.as_bytes()[..call - 1], "at {call}");
    }
    Ok(())
}
