// Pastes, clusters and escapes.
use super::plays::{Example, all_print};
use std::test::Fail;

const EXAMPLES: [Example; 6] = [
    Example {
        name: "a paste split by two sites",
        script: r#"sites 2
paste 1 0 "abcd"
settle
paste 2 1 "xy"
paste 1 1 "z"
settle
show 2
tree 1
"#,
        output: r#"paste 1 4/4
settle 1
paste 2 2/2
paste 1 1/1
settle 2
show 2 "azxybcd"
tree 1 7
1.1 1.1+1 left "a"
1.2 1.1 right "z"
2.1 2.1+1 left "x"
2.1+1 1.1 right "y"
1.1+1 1.1+2 left "b"
1.1+2 root "c"
1.1+3 1.1+2 right "d"
"#,
    },
    Example {
        name: "refused and empty paste",
        script: r#"sites 1
paste 1 1 "a"
paste 1 0 ""
"#,
        output: r#"paste 1 0/1 position 0
paste 1 0/0
"#,
    },
    Example {
        name: "clusters of several characters",
        script: r#"sites 1
ins 1 0 "👩‍👩‍👧!"
"#,
        output: r#"ins 1 2/2
"#,
    },
    Example {
        name: "escapes",
        script: r#"sites 1
ins 1 0 "a\nb"
show 1
"#,
        output: r#"ins 1 3/3
show 1 "a\nb"
"#,
    },
    Example {
        name: "an index past the end",
        script: r#"sites 1
ins 1 0 "ab"
ins 1 3 "x"
del 1 0 5
"#,
        output: r#"ins 1 2/2
ins 1 0/1 position 2
del 1 2/5 position 0
"#,
    },
    Example {
        name: "an atom of 63 bytes",
        script: r#"sites 1
ins 1 0 "á́́́́́́́́́́́́́́́́́́́́́́́́́́́́́́"
"#,
        output: r#"ins 1 1/1
"#,
    },
];

#[test]
fn texts_are_cut_into_clusters_and_runs(rt: HostRuntime) -> Result<(), Fail> {
    all_print(&rt, rt.alloc(), &EXAMPLES)
}
