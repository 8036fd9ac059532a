// A live script in which no thread makes a turn.
use std::test::Fail;
use td_line::Always;
use td_live::live_trace;
use td_script::read_live;

const SCRIPT: &str = "sites 2\nturns 0\neditor 2\nins 1 0 \"ab\"\nlook 1\n";

const TRACE: &str = "sites 2\nsite 1\n1 take op 2.1 -> new\n2 take op 2.2 -> new\nsite 2\n\
1 insert 0 \"a\" -> made 2.1\n2 insertafter 2.1 \"b\" -> made 2.2\neditor 1 2\ncall 1 1\ncall 2 2\n\
look 2 2 \"ab\"\ntext 1 \"ab\"\ntext 2 \"ab\"\nend\n";

#[test]
fn all_lines_are_done_when_the_turns_are_over(rt: HostRuntime) -> Result<(), Fail> {
    let Ok(script) = read_live(rt.alloc(), SCRIPT.as_bytes()) else {
        return Err("a live script".into());
    };
    let trace = live_trace(&rt, rt.alloc(), script, &Always)?;
    assert_eq!(rt; trace.as_slice(), TRACE.as_bytes());
    Ok(())
}
