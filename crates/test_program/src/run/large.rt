// Scripts of the greatest size.
use super::plays::run_of;
use std::alloc::Global;
use std::test::Fail;
use td_base::Bytes;
use td_run::Status;
use td_script::{MAX_SCRIPT, MAX_WIDE_SCRIPT};

const REMARK: &[u8] = b"# nothing\n";

// A script that is filled up with remarks to so many bytes.
fn filled(alloc: Global, commands: &[u8], size: usize) -> Result<Bytes, Fail> {
    let mut script = Bytes::new(alloc);
    script.push(commands)?;
    for _ in 0..size / REMARK.len() {
        script.push(REMARK)?;
    }
    script.truncate(size);
    Ok(script)
}

#[test]
fn many_sites_play_a_script_of_their_greatest_size(rt: HostRuntime) -> Result<(), Fail> {
    let commands = b"sites 64\nins 64 0 \"a\"\nins 1 0 \"b\"\nsettle\nshow 2\n";
    let script = filled(rt.alloc(), commands, MAX_WIDE_SCRIPT)?;
    let (status, sink) = run_of(rt.alloc(), &["play"], script.as_slice())?;
    assert_eq!(rt; status, Status::Done);
    let output = b"ins 64 1/1\nins 1 1/1\nsettle 126\nshow 2 \"ba\"\n";
    assert_eq!(rt; sink.held(), output.as_slice());
    let script = filled(rt.alloc(), commands, MAX_WIDE_SCRIPT + 1)?;
    let (status, sink) = run_of(rt.alloc(), &["play"], script.as_slice())?;
    assert_eq!(rt; status, Status::Script);
    assert_eq!(rt; sink.held(), b"fault 1 size\n".as_slice());
    Ok(())
}

#[test]
fn a_script_of_the_greatest_size_is_played(rt: HostRuntime) -> Result<(), Fail> {
    let script = filled(rt.alloc(), b"sites 1\nshow 1\n", MAX_SCRIPT)?;
    let (status, sink) = run_of(rt.alloc(), &["play"], script.as_slice())?;
    assert_eq!(rt; status, Status::Done);
    assert_eq!(rt; sink.held(), b"show 1 \"\"\n".as_slice());
    let script = filled(rt.alloc(), b"sites 1\nshow 1\n", MAX_SCRIPT + 1)?;
    let (status, sink) = run_of(rt.alloc(), &["play"], script.as_slice())?;
    assert_eq!(rt; status, Status::Script);
    assert_eq!(rt; sink.held(), b"fault 0 size\n".as_slice());
    Ok(())
}

#[test]
fn a_site_makes_at_most_65535_operations(rt: HostRuntime) -> Result<(), Fail> {
    let mut script = Bytes::new(rt.alloc());
    script.push(b"sites 2\n")?;
    for turn in 0..32_766u32 {
        let lines = format!(in rt.alloc(); "flat 1 root\ncancel 1 1.{}\n", 2 * turn + 1)?;
        script.push(lines.as_bytes())?;
    }
    script.push(b"ins 1 0 \"a\"\nflat 1 0 right\nins 1 0 \"b\"\nflat 1 0 left\nins 1 1 \"b\"\n")?;
    let (status, sink) = run_of(rt.alloc(), &["play"], script.as_slice())?;
    let last = b"ins 1 1/1\nflat 1 1.65534\nins 1 0/1 limit 65534 1\nflat 1 limit 65534 1\n\
        ins 1 0/1 held 1.65534\n";
    assert_eq!(rt; status, Status::Done);
    assert!(rt; sink.held().ends_with(last));
    Ok(())
}

#[test]
fn a_large_text_is_made_one_array(rt: HostRuntime) -> Result<(), Fail> {
    let mut script = Bytes::new(rt.alloc());
    script.push(b"sites 1\nins 1 0 \"")?;
    for _ in 0..20_000 {
        script.push(b"a")?;
    }
    script.push(b"\"\nflat 1 root\ncount 1\n")?;
    let (status, sink) = run_of(rt.alloc(), &["play"], script.as_slice())?;
    let output = b"ins 1 20000/20000\nflat 1 1.20001\ndecide 1 1.20001 commit\n\
        count 1 live 20000 rows 20000 waiting 0 holds 0\n";
    assert_eq!(rt; status, Status::Done);
    assert_eq!(rt; sink.held(), output.as_slice());
    Ok(())
}
