// Edits, deliveries, losses, repeats and reorderings, and nothing flattened.
use super::plays::{Example, all_print};
use std::test::Fail;

const EXAMPLES: [Example; 14] = [
    Example {
        name: "no command at all",
        script: r#""#,
        output: r#""#,
    },
    Example {
        name: "empty",
        script: r#"sites 1
show 1
"#,
        output: r#"show 1 ""
"#,
    },
    Example {
        name: "first path",
        script: r#"sites 1
ins 1 0 "ab"
show 1
"#,
        output: r#"ins 1 2/2
show 1 "ab"
"#,
    },
    Example {
        name: "two mini nodes in root",
        script: r#"sites 2
ins 1 0 "a"
ins 2 0 "b"
settle
show 1
show 2
"#,
        output: r#"ins 1 1/1
ins 2 1/1
settle 2
show 1 "ab"
show 2 "ab"
"#,
    },
    Example {
        name: "one gap, two sites",
        script: r#"sites 2
ins 1 0 "ac"
settle
ins 1 1 "X"
ins 2 1 "Y"
settle
show 2
tree 1
"#,
        output: r#"ins 1 2/2
settle 2
ins 1 1/1
ins 2 1/1
settle 2
show 2 "aXYc"
tree 1 4
1.1 root "a"
1.3 1.2 left "X"
2.1 1.2 left "Y"
1.2 1.1 right "c"
"#,
    },
    Example {
        name: "repeat",
        script: r#"sites 2
ins 1 0 "a"
give 2 1
give 2 1
give 2 1
"#,
        output: r#"ins 1 1/1
give 2 1 new 0
give 2 1 repeat
give 2 1 repeat
"#,
    },
    Example {
        name: "reordering",
        script: r#"sites 2
ins 1 0 "ab"
give 2 2
give 2 2
give 2 1
show 2
"#,
        output: r#"ins 1 2/2
give 2 2 later
give 2 2 repeat
give 2 1 new 1
show 2 "ab"
"#,
    },
    Example {
        name: "given late",
        script: r#"sites 2
ins 1 0 "ab"
give 2 2
give 2 1
give 2 2
give 1 1
give 2 9
show 2
"#,
        output: r#"ins 1 2/2
give 2 2 later
give 2 1 new 1
give 2 2 repeat
give 1 1 stray
give 2 9 none
show 2 "ab"
"#,
    },
    Example {
        name: "loss",
        script: r#"sites 2
ins 1 0 "abc"
give 2 1
give 2 3
show 2
count 2
give 1 1
give 2 9
"#,
        output: r#"ins 1 3/3
give 2 1 new 0
give 2 3 later
show 2 "a"
count 2 live 1 rows 1 waiting 1 holds 0
give 1 1 stray
give 2 9 none
"#,
    },
    Example {
        name: "settle of nothing",
        script: r#"sites 1
settle
"#,
        output: r#"settle 0
"#,
    },
    Example {
        name: "three sites, one order",
        script: r#"sites 3
ins 1 0 "ab"
ins 2 0 "cd"
ins 3 0 "ef"
settle
show 2
"#,
        output: r#"ins 1 2/2
ins 2 2/2
ins 3 2/2
settle 12
show 2 "abcdef"
"#,
    },
    Example {
        name: "both delete one atom",
        script: r#"sites 2
ins 1 0 "ab"
settle
del 1 0 1
del 2 0 1
settle
show 1
tree 2
"#,
        output: r#"ins 1 2/2
settle 2
del 1 1/1
del 2 1/1
settle 2
show 1 "b"
tree 2 2
1.1 root "a" dead 1.3 2.1
1.2 1.1 right "b"
"#,
    },
    Example {
        name: "beside a tombstone",
        script: r#"sites 1
ins 1 0 "abc"
del 1 1 1
ins 1 1 "x"
show 1
tree 1
"#,
        output: r#"ins 1 3/3
del 1 1/1
ins 1 1/1
show 1 "axc"
tree 1 4
1.1 root "a"
1.5 1.2 left "x"
1.2 1.1 right "b" dead 1.4
1.3 1.2 right "c"
"#,
    },
    Example {
        name: "sixty-four sites",
        script: r#"sites 64
ins 64 0 "a"
ins 1 0 "b"
settle
show 2
"#,
        output: r#"ins 64 1/1
ins 1 1/1
settle 126
show 2 "ba"
"#,
    },
];

#[test]
fn texts_converge_whatever_is_lost_or_comes_late(rt: HostRuntime) -> Result<(), Fail> {
    all_print(&rt, rt.alloc(), &EXAMPLES)
}
