// The words of the command line.
use super::plays::run_of;
use std::test::Fail;
use td_run::Status;

const USAGE: &str = "usage: treedoc play | live | kept | check | gen SIZE NUMBER\n";

#[test]
fn other_words_are_a_usage_refusal(rt: HostRuntime) -> Result<(), Fail> {
    for line in [
        &[][..],
        &["help"][..],
        &["play", "play"][..],
        &["Play"][..],
        &["kept", "kept"][..],
        &["gen", "3"][..],
        &["gen", "50001", "7"][..],
        &["gen", "03", "7"][..],
        &["gen", "3", "1000000000"][..],
    ] {
        let (status, sink) = run_of(rt.alloc(), line, b"")?;
        assert_eq!(rt; status, Status::Usage, "at {line:?}");
        assert_eq!(rt; status.number(), 2);
        assert_eq!(rt; sink.held(), USAGE.as_bytes(), "at {line:?}");
    }
    Ok(())
}
