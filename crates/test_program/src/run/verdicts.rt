// Traces as bytes in, and verdicts as bytes out.
use super::plays::run_of;
use std::alloc::Global;
use std::test::Fail;
use td_base::Bytes;
use td_run::Status;

// What `check` says of a trace of at most 512 MiB.
pub fn verdict_on(alloc: Global, trace: &[u8]) -> Result<(Status, Bytes), Fail> {
    let (status, sink) = run_of(alloc, &["check"], trace)?;
    let mut verdict = Bytes::new(alloc);
    verdict.push(sink.held())?;
    Ok((status, verdict))
}

// Each word, but for that of a trace which is too long.
const TRACES: [(&str, &str); 10] = [
    ("sites 0\nend\n", "yes\n"),
    ("", "no 1 form\n"),
    (
        "sites 1\nsite 1\n1 insert 0 \"a\" -> made 1.1\neditor 1 1\ncall 1 1\nlook 1 1 \"a\"\ntext 1 \"a\"\nend\n",
        "yes\n",
    ),
    (
        "sites 1\nsite 1\n1 insert 0 \"a\" -> made 1.2\neditor 1 1\ncall 1 1\nlook 1 1 \"a\"\ntext 1 \"a\"\nend\n",
        "no 3 reply\n",
    ),
    (
        "sites 1\nsite 1\n1 insert 0 \"a\" -> made 1.1\n2 take op 1.2 -> new\ntext 1 \"a\"\nend\n",
        "no 4 missing\n",
    ),
    (
        "sites 1\nsite 1\n1 insert 0 \"a\" -> made 1.1\neditor 1 1\ncall 2 1\nlook 1 1 \"a\"\ntext 1 \"a\"\nend\n",
        "no 5 call\n",
    ),
    (
        "sites 1\nsite 1\n1 insert 0 \"a\" -> made 1.1\neditor 1 1\ncall 1 1\nlook 1 1 \"b\"\ntext 1 \"a\"\nend\n",
        "no 6 look\n",
    ),
    (
        "sites 1\nsite 1\n1 insert 0 \"a\" -> made 1.1\neditor 1 1\nlook 0 1 \"a\"\ntext 1 \"a\"\nend\n",
        "no 3 alone\n",
    ),
    (
        "sites 1\nsite 1\n1 insert 0 \"a\" -> made 1.1\neditor 1 1\ncall 1 1\ntext 1 \"b\"\nend\n",
        "no 6 text\n",
    ),
    (
        "sites 2\nsite 1\n1 insert 0 \"a\" -> made 1.1\nsite 2\neditor 1 1\ncall 1 1\ntext 1 \"a\"\ntext 2 \"\"\nend\n",
        "no 9 open\n",
    ),
];

#[test]
fn a_verdict_is_told_by_its_line_and_its_word(rt: HostRuntime) -> Result<(), Fail> {
    for (trace, expected) in TRACES {
        let (status, verdict) = verdict_on(rt.alloc(), trace.as_bytes())?;
        assert_eq!(rt; status, Status::Done, "{trace}");
        assert_eq!(rt; verdict.as_slice(), expected.as_bytes(), "{trace}");
    }
    Ok(())
}
