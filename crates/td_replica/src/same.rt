// Whether two operations are one. What `==` does not tell apart is one, part by part.
ghost use Rattle.std.specs.Prelude.{◌≡◌, IsTrue};

use td_base::Run;
use td_op::{Body, Op};

pub(crate) fn same_op(a: &Op, b: &Op) -> bool
    ensures { IsTrue result → a.now ≡ b.now }
{
    if a.dot() != b.dot() {
        return false;
    }
    if *a.deps() != *b.deps() {
        return false;
    }
    same_body(a.body_ref(), b.body_ref())
}

fn same_body(a: &Body, b: &Body) -> bool
    ensures { IsTrue result → a.now ≡ b.now }
{
    match (a, b) {
        (
            Body::Insert { slot, run },
            Body::Insert {
                slot: place,
                run: text,
            },
        ) => {
            let slots = slot == place;
            let runs = same_run(run, text);
            slots && runs
        }
        (Body::Delete { target }, Body::Delete { target: other }) => target == other,
        (Body::Propose { slot }, Body::Propose { slot: other }) => slot == other,
        (Body::Commit { proposal }, Body::Commit { proposal: other }) => proposal == other,
        (Body::Abort { proposal }, Body::Abort { proposal: other }) => proposal == other,
        _ => false,
    }
}

fn same_run(a: &Run, b: &Run) -> bool
    ensures { IsTrue result → a.now ≡ b.now }
{
    let _lengths = (a.len(), b.len());
    a == b
}
