// Generated scripts.
use super::plays::run_of;
use std::test::Fail;
use td_run::Status;

#[test]
fn scripts_have_their_summary(rt: HostRuntime) -> Result<(), Fail> {
    for (size, number, summary) in [
        (
            "3",
            "42",
            r#"gen 3 42
commands 5
site 1 live 3 rows 3 made 1
site 2 live 3 rows 3 made 1
site 3 live 3 rows 3 made 1
head "wax"
"#,
        ),
        (
            "0",
            "7",
            r#"gen 0 7
commands 2
site 1 live 0 rows 0 made 0
site 2 live 0 rows 0 made 0
site 3 live 0 rows 0 made 0
head ""
"#,
        ),
        (
            "20000",
            "7",
            r#"gen 20000 7
commands 20800
site 1 live 27716 rows 27770 made 12738
site 2 live 27716 rows 27770 made 12724
site 3 live 27716 rows 27770 made 12646
head "snocufqhzlzvnxjxvefgzabcdeifghij"
"#,
        ),
    ] {
        let (status, sink) = run_of(rt.alloc(), &["gen", size, number], b"")?;
        assert_eq!(rt; status, Status::Done);
        assert_eq!(rt; sink.held(), summary.as_bytes());
    }
    Ok(())
}

#[test]
fn a_day_of_editing_is_the_same_twice(rt: HostRuntime) -> Result<(), Fail> {
    let (first, once) = run_of(rt.alloc(), &["gen", "2000", "7"], b"")?;
    let (second, twice) = run_of(rt.alloc(), &["gen", "2000", "7"], b"")?;
    assert_eq!(rt; first, Status::Done);
    assert_eq!(rt; second, Status::Done);
    assert_eq!(rt; once.held(), twice.held());
    assert_eq!(rt; once.held().split(|byte| *byte == b'\n').count(), 7);
    Ok(())
}
