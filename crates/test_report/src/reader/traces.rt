use std::test::Fail;
use td_reader::{MAX_TRACE, ReadLine, read_trace};

/// The trace of a live script of two sites and one editor, which looks at the end.
pub(crate) const FIXED: &str = "sites 2\nsite 1\n1 insert 0 \"a\" -> made 1.1\n\
2 insertafter 1.1 \"b\" -> made 1.2\n3 propose root -> made 1.3\n4 insert 0 \"x\" -> held 1.3\n\
5 take vote 2 1.3 yes -> new\nsite 2\n1 take op 1.1 -> new\n2 take op 1.2 -> new\n3 take op 1.3 -> new\n\
4 take op 1.4 -> new\neditor 1 1\ncall 1 1\ncall 2 2\ncall 3 3\ncall 4 4\nlook 4 4 \"ab\"\ntext 1 \"ab\"\n\
text 2 \"ab\"\nend\n";

/// Each request, each input and each reply, and the greatest number of each field.
pub(crate) const EACH: &str = "sites 1\nsite 1\n\
1 insert 4294967295 \"\\\"\\\\\\n\" -> made 64.65535\n\
2 insertafter start \"\u{e9}\" -> cancelled\n\
3 insertafter 1.1+63 \"ab\" -> held 1.2\n\
4 paste 0 \"a\" \"bc\" -> position 4294967295\n\
5 pasteafter start \"a\" -> gone 64.1+1\n\
6 pasteafter 2.3 \"a\" \"b\" -> limit 65535 4294967295\n\
7 delete 7 -> notopen 1.3\n\
8 deleteatom 1.1+1 -> new\n\
9 propose root -> later\n\
10 propose 1.1 left -> repeat\n\
11 propose 1.1+2 right -> unfit size\n\
12 proposeat 3 left -> unfit own\n\
13 proposeat 3 right -> unfit atom\n\
14 cancel 1.3 -> unfit proposal\n\
15 take op 3.4 -> unfit vote\n\
16 take vote 64 1.3 yes -> unfit address\n\
17 take vote 2 1.3 no -> taken 2.2\n\
18 next -> dropped 2.2 atom\n\
19 next -> idle\n\
editor 1 1\n\
call 18446744073709551615 18446744073709551615\n\
look 0 18446744073709551615 \"\"\n\
text 1 \"\\n\\\"\"\n\
end\n";

/// A live script without commands.
pub(crate) const EMPTY: &str = "sites 0\nend\n";

#[test]
fn traces_are_read_line_by_line(rt: HostRuntime) -> Result<(), Fail> {
    for (text, lines) in [(FIXED, 21), (EACH, 26), (EMPTY, 2)] {
        let bytes = text.as_bytes();
        assert!(rt; bytes.len() <= MAX_TRACE);
        let trace = read_trace(rt.alloc(), bytes)?;
        for k in 0..lines {
            assert_eq!(rt;
                matches!(trace.line(k), Some(ReadLine::End)),
                k + 1 == lines,
                "{k}"
            );
            assert!(rt; trace.line(k).is_some());
        }
        assert!(rt; trace.line(lines).is_none());
    }
    Ok(())
}

#[test]
fn a_text_is_read_without_its_escapes(rt: HostRuntime) -> Result<(), Fail> {
    assert!(rt; EACH.len() <= MAX_TRACE);
    let trace = read_trace(rt.alloc(), EACH.as_bytes())?;
    let Some(ReadLine::Text { text, .. }) = trace.line(24) else {
        return Err(Fail::from("no text"));
    };
    let text = text.text(rt.alloc())?;
    assert_eq!(rt; text.as_slice(), b"\n\"".as_slice());
    Ok(())
}
