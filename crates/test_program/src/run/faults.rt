// Scripts that are no scripts: the first faulty line, with the first thing wrong with it.
use super::plays::all_are_refused;
use std::test::Fail;

const FAULTS: [(&str, &str); 12] = [
    (
        r#"sites 65
"#,
        "fault 1 sites\n",
    ),
    (
        r#"show 1
"#,
        "fault 1 sites\n",
    ),
    (
        r#"sites 2
show 3
"#,
        "fault 2 site\n",
    ),
    (
        r#"sites 2
show
"#,
        "fault 2 end\n",
    ),
    (
        r#"sites 2
show 01
"#,
        "fault 2 number\n",
    ),
    (
        r#"sites 1
ins 1 0 "a
"#,
        "fault 2 quote\n",
    ),
    (
        r#"sites 1
move 1
"#,
        "fault 2 word\n",
    ),
    (
        r#"sites 1
ins 1 0 "á́́́́́́́́́́́́́́́́́́́́́́́́́́́́́́́"
"#,
        "fault 2 atom\n",
    ),
    (
        r#"sites 1
show 1 
"#,
        "fault 2 end\n",
    ),
    (
        r#"sites 17
ins 1 0 "ab"
settle
del 2 0 65534
"#,
        "fault 4 size\n",
    ),
    (
        r#"sites 1
mark 1 32 0 1
"#,
        "fault 2 number\n",
    ),
    (
        r#"sites 1
meet 1 2
"#,
        "fault 2 site\n",
    ),
];

#[test]
fn the_first_fault_is_told(rt: HostRuntime) -> Result<(), Fail> {
    all_are_refused(&rt, rt.alloc(), &FAULTS)
}
