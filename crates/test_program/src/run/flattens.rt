// Flattens that are voted on, and edits beside them.
use super::plays::{Example, all_print, run_of};
use std::test::Fail;
use td_run::Status;

const EXAMPLES: [Example; 8] = [
    Example {
        name: "flatten at one site",
        script: r#"sites 1
ins 1 0 "abcd"
flat 1 root
tree 1
"#,
        output: r#"ins 1 4/4
flat 1 1.5
decide 1 1.5 commit
tree 1 4
1.1 1.2 left "a"
1.2 1.3 left "b"
1.3 root "c"
1.4 1.3 right "d"
"#,
    },
    Example {
        name: "held",
        script: r#"sites 2
ins 1 0 "ab"
flat 1 root
ins 1 0 "x"
give 2 all
ins 2 0 "y"
give 1 all
ins 1 0 "x"
ins 2 0 "y"
settle
show 2
"#,
        output: r#"ins 1 2/2
flat 1 1.3
ins 1 0/1 held 1.3
give 2 1 new 0
give 2 2 new 0
give 2 3 new 0
vote 2 1.3 yes
ins 2 0/1 held 1.3
give 1 4 new 0
decide 1 1.3 commit
ins 1 1/1
ins 2 0/1 held 1.3
settle 2
show 2 "xab"
"#,
    },
    Example {
        name: "an edit takes precedence",
        script: r#"sites 2
ins 1 0 "ab"
settle
flat 1 root
ins 2 2 "c"
give 2 3
give 1 5
settle
tree 1
"#,
        output: r#"ins 1 2/2
settle 2
flat 1 1.3
ins 2 1/1
give 2 3 new 0
vote 2 1.3 no
give 1 5 new 0
decide 1 1.3 abort
settle 2
tree 1 3
1.1 root "a"
1.2 1.1 right "b"
2.1 1.2 right "c"
"#,
    },
    Example {
        name: "two proposals at once, overlapping",
        script: r#"sites 2
ins 1 0 "abc"
settle
flat 1 root
flat 2 0 right
settle
"#,
        output: r#"ins 1 3/3
settle 3
flat 1 1.4
flat 2 2.1
vote 1 2.1 no
vote 2 1.4 no
decide 2 2.1 abort
decide 1 1.4 abort
settle 6
"#,
    },
    Example {
        name: "two proposals at once, disjoint",
        script: r#"sites 2
ins 1 0 "abc"
settle
flat 1 1 left
flat 2 1 right
settle
"#,
        output: r#"ins 1 3/3
settle 3
flat 1 1.4
flat 2 2.1
vote 1 2.1 yes
vote 2 1.4 yes
decide 2 2.1 commit
decide 1 1.4 commit
settle 6
"#,
    },
    Example {
        name: "a slot used again",
        script: r#"sites 2
ins 1 0 "xy"
settle
del 1 1 1
settle
flat 1 0 right
settle
ins 1 1 "p"
ins 2 1 "q"
settle
show 2
tree 1
"#,
        output: r#"ins 1 2/2
settle 2
del 1 1/1
settle 1
flat 1 1.4
vote 2 1.4 yes
decide 1 1.4 commit
settle 3
ins 1 1/1
ins 2 1/1
settle 2
show 2 "xpq"
tree 1 3
1.1 root "x"
1.6 1.1 right "p"
2.1 1.1 right "q"
"#,
    },
    Example {
        name: "cancel and a late yes",
        script: r#"sites 2
ins 1 0 "a"
settle
flat 1 root
give 2 2
cancel 1 1.2
give 1 3
ins 2 0 "z"
settle
ins 2 0 "z"
cancel 1 1.2
"#,
        output: r#"ins 1 1/1
settle 1
flat 1 1.2
give 2 2 new 0
vote 2 1.2 yes
cancel 1 1.2 ok
decide 1 1.2 abort
give 1 3 repeat
ins 2 0/1 held 1.2
settle 1
ins 2 1/1
cancel 1 1.2 notopen
"#,
    },
    Example {
        name: "a vote after an unseen commit",
        script: r#"sites 3
ins 1 0 "abcd"
settle
flat 2 root
cancel 2 2.1
flat 1 root
give 2 7
give 3 7
give 1 8
give 1 9
give 3 10
give 3 5
count 3
"#,
        output: r#"ins 1 4/4
settle 8
flat 2 2.1
cancel 2 2.1 ok
decide 2 2.1 abort
flat 1 1.5
give 2 7 new 0
vote 2 1.5 yes
give 3 7 new 0
vote 3 1.5 yes
give 1 8 new 0
give 1 9 new 0
decide 1 1.5 commit
give 3 10 new 0
give 3 5 new 0
vote 3 2.1 no
count 3 live 4 rows 4 waiting 0 holds 0
"#,
    },
];

#[test]
fn flattens_are_decided_once_and_change_no_text(rt: HostRuntime) -> Result<(), Fail> {
    all_print(&rt, rt.alloc(), &EXAMPLES)
}

#[test]
fn each_front_of_a_script_is_played_or_refused(rt: HostRuntime) -> Result<(), Fail> {
    for example in &EXAMPLES {
        let script = example.script.as_bytes();
        for cut in 0..script.len() {
            let (status, sink) = run_of(rt.alloc(), &["play"], &script[..cut])?;
            let is_refused = status == Status::Script && sink.held().starts_with(b"fault ");
            assert!(rt;
                is_refused || status == Status::Done,
                "at {cut} of {}",
                example.name
            );
        }
    }
    Ok(())
}
