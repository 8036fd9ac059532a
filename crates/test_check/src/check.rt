use std::test::Fail;
use td_check::{Fault, Verdict, check_trace};

pub fn no(line: u32, fault: Fault) -> Verdict {
    Verdict::No { line, fault }
}

#[test]
fn small_traces_and_their_verdicts(rt: HostRuntime) -> Result<(), Fail> {
    let cases = [
        ("sites 0\nend\n", Verdict::Yes),
        ("", no(1, Fault::Form)),
        ("sites 0\n", no(2, Fault::Form)),
        (
            "sites 1\nsite 1\n1 insert 0 \"a\" -> made 1.1\ntext 1 \"a\"\nend\n",
            no(3, Fault::Alone),
        ),
        (
            "sites 2\nsite 1\n1 insert 0 \"a\" -> made 1.1\nsite 2\neditor 1 1\ncall 1 1\n\
            text 1 \"a\"\ntext 2 \"\"\nend\n",
            no(9, Fault::Open),
        ),
        (
            "sites 1\nsite 1\n1 propose root -> made 1.1\n2 insert 0 \"a\" -> made 1.3\n\
            editor 1 1\ncall 1 1\ncall 2 2\ntext 1 \"a\"\nend\n",
            Verdict::Yes,
        ),
    ];
    for (text, expected) in cases {
        assert_eq!(rt;
            check_trace(rt.alloc(), text.as_bytes()),
            Ok(expected),
            "{text}"
        );
    }
    Ok(())
}

// Site 1 takes 2.1 before it makes 1.1, and site 2 takes 1.1 before it makes 2.1; each waits there for what site 3
// typed.
const CROSSING: &str = "sites 3\n\
site 1\n1 take op 2.1 -> later\n2 take op 3.1 -> new\n3 insert 0 \"a\" -> made 1.1\n4 take op 3.2 -> new\n\
5 next -> taken 2.1\n\
site 2\n1 take op 1.1 -> later\n2 take op 3.1 -> new\n3 take op 3.2 -> new\n4 insert 0 \"b\" -> made 2.1\n\
5 next -> taken 1.1\n\
site 3\n1 insert 0 \"x\" -> made 3.1\n2 insert 0 \"y\" -> made 3.2\n3 take op 1.1 -> new\n4 take op 2.1 -> new\n\
editor 1 1\ncall 1 3\neditor 2 2\ncall 1 4\neditor 3 3\ncall 1 1\ncall 2 2\n\
text 1 \"abyx\"\ntext 2 \"abyx\"\ntext 3 \"abyx\"\nend\n";

#[test]
fn no_order_in_time_is_asked(rt: HostRuntime) -> Result<(), Fail> {
    assert_eq!(rt;
        check_trace(rt.alloc(), CROSSING.as_bytes()),
        Ok(Verdict::Yes)
    );
    Ok(())
}
