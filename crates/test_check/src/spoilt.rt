// Traces in which one line is another one, or is missing: which line is at fault then, and how.
use crate::check::no;
use std::alloc::Global;
use std::process::Abort;
use std::test::Fail;
use td_base::Bytes;
use td_check::{Fault, Verdict, check_trace};

// Two sites: an editor types, and proposes a flatten, which holds up the next edit; the other site has said yes.
const FIXED: &str = r#"sites 2
site 1
1 insert 0 "a" -> made 1.1
2 insertafter 1.1 "b" -> made 1.2
3 propose root -> made 1.3
4 insert 0 "x" -> held 1.3
5 take vote 2 1.3 yes -> new
site 2
1 take op 1.1 -> new
2 take op 1.2 -> new
3 take op 1.3 -> new
4 take op 1.4 -> new
editor 1 1
call 1 1
call 2 2
call 3 3
call 4 4
look 4 4 "ab"
text 1 "ab"
text 2 "ab"
end"#;

// The verdict, the line that is spoilt, and what stands there instead, or nothing.
const FIXED_CHANGES: &str = r#"6 reply | 6 | 4 insert 0 "x" -> made 1.4
11 missing | 7 | 
20 text | 20 | text 2 "b"
21 form | 21 | 
15 call | 14 | call 1 2
20 open | 12 | "#;

// Three sites, with each kind of entry. The flatten of site 1 is committed; one of site 2 is cancelled, and the other
// has a No, since site 3 typed meanwhile.
const EVERY: &str = r#"sites 3
site 1
1 insert 0 "a" -> made 1.1
2 insertafter 1.1 "b" -> made 1.2
3 propose root -> made 1.3
4 insert 0 "x" -> held 1.3
5 take vote 2 1.3 yes -> new
6 take vote 2 1.3 yes -> repeat
7 take vote 3 1.3 yes -> new
8 take op 2.1 -> new
9 take op 2.2 -> new
10 take op 2.3 -> new
11 take op 2.4 -> new
12 take op 3.2 -> later
13 take op 3.1 -> new
14 next -> taken 3.2
15 take op 2.6 -> later
16 take op 2.5 -> new
17 next -> idle
18 take op 3.3 -> new
19 next -> taken 2.6
site 2
1 take op 1.2 -> later
2 take op 1.2 -> repeat
3 take op 1.1 -> new
4 next -> taken 1.2
5 take op 1.3 -> new
6 take op 1.4 -> new
7 paste 1 "\"" "\\" -> made 2.1
8 proposeat 0 left -> made 2.2
9 delete 4 -> position 4
10 cancel 2.2 -> cancelled
11 cancel 2.2 -> notopen 2.2
12 take vote 1 2.2 yes -> repeat
13 propose 2.1+1 right -> made 2.4
14 take vote 3 2.4 no -> new
15 take op 3.1 -> new
16 take op 3.2 -> new
17 take op 3.3 -> new
18 deleteatom 1.2 -> made 2.6
site 3
1 take op 1.1 -> new
2 take op 1.2 -> new
3 take op 1.3 -> new
4 take op 1.4 -> new
5 take op 2.4 -> later
6 take op 2.1 -> new
7 take op 2.2 -> new
8 take op 2.3 -> new
9 insertafter 2.1+1 "\n" -> made 3.1
10 delete 0 -> made 3.2
11 deleteatom 1.1 -> gone 1.1
12 pasteafter start "é" "f" -> made 3.3
13 next -> taken 2.4
14 next -> idle
15 take op 2.5 -> new
16 take op 2.6 -> new
editor 1 1
look 0 0 ""
call 1 1
call 2 2
look 2 2 "ab"
call 3 3
call 4 4
look 4 9 "a\"\\b"
editor 2 2
call 1 7
call 2 9
call 3 11
call 4 13
editor 3 2
look 0 4 "ab"
call 1 8
call 2 10
look 2 10 "a\"\\b"
call 3 18
editor 4 3
call 1 9
call 2 10
call 3 11
call 4 12
look 4 16 "éf\"\\\n"
text 1 "éf\"\\\n"
text 2 "éf\"\\\n"
text 3 "éf\"\\\n"
end"#;

// What may stand there instead.
const SAME: &str = r#"29 | 7 pasteafter 1.1 "\"" "\\" -> made 2.1
30 | 8 propose 1.1 left -> made 2.2
30 | 8 propose root -> made 2.2
6 | 4 delete 0 -> held 1.3
6 | 4 delete 2 -> position 2
6 | 4 propose 1.2 left -> held 1.3
6 | 4 cancel 1.2 -> notopen 1.2
31 | 9 deleteatom 9.9 -> gone 9.9
31 | 9 proposeat 4 right -> position 4
31 | 9 insert 0 "x" -> held 2.2
33 | 11 cancel 64.65535 -> notopen 64.65535
34 | 12 take vote 3 2.2 yes -> repeat
40 | 18 delete 5 -> made 2.6
53 | 12 paste 0 "é" "f" -> made 3.3
55 | 14 take op 2.4 -> repeat
59 | look 0 1 "a"
62 | 
62 | look 2 4 "ab""#;

// What may not.
const CHANGES: &str = r#"2 form | 1 | sites 0
41 form | 1 | sites 2
58 form | 1 | sites 4
3 form | 3 | 2 insert 0 "a" -> made 1.1
3 form | 3 | 1 insert 4294967296 "a" -> made 1.1
4 form | 4 | 2 insertafter 1.1+64 "b" -> made 1.2
7 form | 7 | 5 take vote 65 1.3 yes -> new
16 form | 16 | 14 next -> dropped 3.2
35 form | 35 | 13 propose 2.1+1 -> made 2.4
58 form | 58 | editor 1 4
60 form | 60 | call 18446744073709551616 1
84 form | 84 | 
3 reply | 3 | 1 insert 4294967295 "a" -> made 1.1
3 reply | 3 | 1 insert 0 "a" -> made 1.2
4 reply | 4 | 2 insertafter 1.1+63 "b" -> made 1.2
5 reply | 5 | 3 propose root -> made 1.4
5 reply | 5 | 3 propose 1.3 left -> made 1.3
6 reply | 6 | 4 insert 0 "x" -> made 1.4
6 reply | 6 | 4 insert 0 "x" -> held 1.2
6 reply | 6 | 4 insert 3 "x" -> held 1.3
6 reply | 6 | 4 insert 0 "x" -> limit 3 1
7 reply | 6 | 4 cancel 1.3 -> cancelled
30 reply | 30 | 8 proposeat 4 left -> made 2.2
31 reply | 31 | 9 delete 4 -> position 3
31 reply | 31 | 9 delete 3 -> position 4
31 reply | 31 | 9 insert 4 "x" -> position 4
31 reply | 31 | 9 deleteatom 9.9 -> gone 9.8
32 reply | 32 | 10 cancel 2.2 -> made 2.3
32 reply | 32 | 10 cancel 2.2 -> notopen 2.2
33 reply | 32 | 10 cancel 2.1 -> notopen 2.1
33 reply | 33 | 11 cancel 2.2 -> notopen 2.1
52 reply | 51 | 10 delete 1 -> made 3.2
53 reply | 53 | 12 pasteafter 1.1 "é" "f" -> made 3.3
7 missing | 7 | 5 take vote 1 1.3 yes -> new
7 missing | 7 | 5 take vote 2 2.2 yes -> new
7 reply | 7 | 5 take vote 4 1.3 yes -> new
7 reply | 7 | 5 take vote 2 1.2 yes -> new
7 reply | 7 | 5 take vote 2 1.3 yes -> repeat
7 reply | 7 | 5 take vote 2 1.3 yes -> unfit vote
8 reply | 7 | 5 take vote 3 1.3 yes -> new
9 reply | 7 | 5 take vote 2 1.3 no -> new
8 missing | 8 | 6 take vote 2 1.3 no -> repeat
9 missing | 9 | 7 take vote 3 1.3 no -> new
34 reply | 34 | 12 take vote 1 2.2 yes -> new
34 missing | 34 | 12 take vote 1 2.2 no -> repeat
34 reply | 34 | 12 take vote 1 2.1 yes -> repeat
36 missing | 35 | 13 propose 2.1 right -> made 2.4
36 reply | 35 | 13 propose 2.1+2 right -> gone 2.1+2
17 missing | 36 | 14 take vote 3 2.4 yes -> new
36 missing | 36 | 14 take vote 1 2.4 no -> new
36 reply | 36 | 14 take vote 3 2.4 no -> repeat
10 missing | 10 | 8 take op 1.2 -> repeat
10 missing | 10 | 8 take op 2.7 -> later
10 missing | 10 | 8 take op 4.1 -> later
10 reply | 10 | 8 take op 2.1 -> later
10 reply | 10 | 8 take op 2.1 -> repeat
10 reply | 10 | 8 take op 2.6 -> new
11 reply | 10 | 8 next -> idle
14 reply | 14 | 12 take op 3.2 -> new
14 reply | 14 | 12 take op 3.2 -> unfit own
16 reply | 14 | 12 take op 3.3 -> later
23 reply | 23 | 1 take op 1.1 -> later
23 reply | 23 | 1 take op 1.2 -> new
23 missing | 23 | 1 take op 1.5 -> later
23 reply | 23 | 1 take op 3.1 -> later
24 reply | 24 | 2 take op 1.2 -> later
24 reply | 24 | 2 take op 1.1 -> repeat
29 reply | 28 | 6 next -> idle
46 reply | 46 | 5 take op 2.6 -> later
16 reply | 16 | 14 next -> idle
16 missing | 16 | 14 next -> taken 1.1
16 missing | 16 | 14 next -> taken 3.4
16 reply | 16 | 14 next -> taken 3.1
16 reply | 16 | 14 next -> dropped 3.2 atom
16 reply | 16 | 14 next -> new
19 reply | 19 | 17 next -> taken 2.6
21 reply | 21 | 19 next -> idle
55 reply | 55 | 14 next -> taken 2.4
82 text | 21 | 
56 missing | 40 | 
81 look | 57 | 
60 call | 58 | editor 1 2
60 call | 60 | 
60 call | 60 | call 2 1
60 call | 60 | call 18446744073709551615 1
60 call | 60 | call 1 0
60 call | 60 | call 1 5
60 call | 60 | call 1 20
61 call | 60 | call 1 2
67 call | 66 | editor 2 3
64 call | 6 | 4 next -> idle
59 look | 59 | look 1 0 ""
59 look | 59 | look 0 0 "a"
59 look | 59 | look 0 20 "éf\"\\\n"
62 look | 62 | look 2 1 "a"
65 look | 62 | look 2 10 "a\"\\b"
64 look | 64 | 
62 look | 61 | look 1 1 "a"
65 look | 29 | 7 pasteafter 1.1 "'" "\\" -> made 2.1
82 look | 40 | 18 delete 4 -> made 2.6
36 missing | 50 | 9 insertafter 2.1 "\n" -> made 3.1
35 alone | 70 | 
35 alone | 70 | call 4 18
29 alone | 67 | call 1 8
55 alone | 55 | 14 insert 9 "x" -> position 6
83 text | 83 | text 1 "éf\"\\"
84 text | 84 | text 2 ""
85 text | 85 | text 3 "éf\"\\\n ""#;

fn fault_of(word: &str) -> Option<Fault> {
    Some(match word {
        "form" => Fault::Form,
        "reply" => Fault::Reply,
        "missing" => Fault::Missing,
        "call" => Fault::Call,
        "look" => Fault::Look,
        "alone" => Fault::Alone,
        "text" => Fault::Text,
        "open" => Fault::Open,
        _ => return None,
    })
}

// The verdict that a row tells, and the rest of the row.
fn expected(row: &str) -> Option<(Verdict, &str)> {
    let (told, rest) = row.split_once(" | ")?;
    let (line, word) = told.split_once(' ')?;
    Some((no(line.parse().ok()?, fault_of(word)?), rest))
}

// The number of a line, from 1, and what stands there instead.
fn change(row: &str) -> Option<(usize, &str)> {
    let (number, other) = row.split_once(" | ")?;
    Some((number.parse().ok()?, other))
}

// The verdict on the trace with that change.
fn verdict(alloc: Global, trace: &str, number: usize, other: &str) -> Result<Verdict, Fail> {
    let mut bytes = Bytes::new(alloc);
    for (place, line) in trace.split('\n').enumerate() {
        let told = if place == number.wrapping_sub(1) {
            other
        } else {
            line
        };
        if !told.is_empty() {
            bytes.push(told.as_bytes())?;
            bytes.push(b"\n")?;
        }
    }
    Ok(check_trace(alloc, bytes.as_slice())?)
}

// Each row of the table says what the verdict is.
fn all_are_spoilt(rt: &impl Abort, alloc: Global, trace: &str, rows: &str) -> Result<(), Fail> {
    for row in rows.split('\n') {
        let (expected, rest) = expected(row).ok_or("a verdict")?;
        let (number, other) = change(rest).ok_or("a change")?;
        assert_eq!(rt; verdict(alloc, trace, number, other)?, expected, "{row}");
    }
    Ok(())
}

#[test]
fn the_worked_trace_is_spoilt_by_one_line(rt: HostRuntime) -> Result<(), Fail> {
    assert_eq!(rt; verdict(rt.alloc(), FIXED, 0, "")?, Verdict::Yes);
    all_are_spoilt(&rt, rt.alloc(), FIXED, FIXED_CHANGES)
}

#[test]
fn each_line_of_a_trace_counts(rt: HostRuntime) -> Result<(), Fail> {
    all_are_spoilt(&rt, rt.alloc(), EVERY, CHANGES)
}

#[test]
fn a_line_too_many_is_found(rt: HostRuntime) -> Result<(), Fail> {
    let cases = [
        (86, "end\nend", no(87, Fault::Form)),
        (70, "call 4 13\ncall 5 18", no(40, Fault::Alone)),
    ];
    for (number, other, expected) in cases {
        assert_eq!(rt;
            verdict(rt.alloc(), EVERY, number, other)?,
            expected,
            "{other}"
        );
    }
    Ok(())
}

#[test]
fn what_comes_to_the_same_is_as_good(rt: HostRuntime) -> Result<(), Fail> {
    for row in SAME.split('\n') {
        let (number, other) = change(row).ok_or("a change")?;
        assert_eq!(rt;
            verdict(rt.alloc(), EVERY, number, other)?,
            Verdict::Yes,
            "{row}"
        );
    }
    Ok(())
}

#[test]
fn the_next_line_is_missing_in_a_trace_that_is_cut_off(rt: HostRuntime) -> Result<(), Fail> {
    let (mut bytes, mut next) = (Bytes::new(rt.alloc()), 1_u32);
    for line in EVERY.split('\n') {
        assert_eq!(rt;
            check_trace(rt.alloc(), bytes.as_slice())?,
            no(next, Fault::Form)
        );
        bytes.push(line.as_bytes())?;
        bytes.push(b"\n")?;
        next = next.wrapping_add(1);
    }
    assert_eq!(rt; check_trace(rt.alloc(), bytes.as_slice())?, Verdict::Yes);
    Ok(())
}
