ghost use Rattle.std.specs.Prelude.{◌≡◌};
ghost use Rattle.td_store.specs.OpsParts.{IsPlaced, IsTypedIn, head_of, op_in};
ghost use Rattle.td_store.specs.Typed.{dot_behind, typed_op};

use crate::heads::Heads;
use td_base::{Atom, AtomId, Bit, Dot, Run};
use td_clock::Vector;
use td_op::{Body, Op};
use td_path::Slot;

// How an operation is kept.
#[derive(Clone, Copy)]
pub(crate) enum Place {
    // whole, as the head of this number
    Head(u32),
    Letter(Typed),
}

// A letter that is typed so many operations behind the head of a number.
#[derive(Clone, Copy)]
pub(crate) struct Typed {
    pub(crate) head: u32,
    pub(crate) behind: u8,
    pub(crate) letter: u8,
}

impl Place {
    // The operation.
    pub(crate) fn op(self, heads: &Heads) -> Op
        requires { IsPlaced heads.now.ops self }
        ensures { result ≡ op_in heads.now.ops self }
    {
        // early returns, here and below: an arm of a `match` would copy its 240 bytes once more
        let typed = match self {
            Place::Head(number) => return heads.at(number),
            Place::Letter(typed) => typed,
        };
        let dot = typed.dot(heads);
        Op::of(dot, &typed.deps(heads), &typed.body(heads))
    }

    // What it depends on.
    pub(crate) fn deps(self, heads: &Heads) -> Vector
        requires { IsPlaced heads.now.ops self }
        ensures { result ≡ (op_in heads.now.ops self).deps }
    {
        match self {
            Place::Head(number) => heads.deps(number),
            Place::Letter(typed) => typed.deps(heads),
        }
    }

    // Its dot.
    pub(crate) fn dot(self, heads: &Heads) -> Dot
        requires { IsPlaced heads.now.ops self }
        ensures { result ≡ (op_in heads.now.ops self).dot }
    {
        match self {
            Place::Head(number) => heads.dot(number),
            Place::Letter(typed) => typed.dot(heads),
        }
    }

    // What it does.
    pub(crate) fn body(self, heads: &Heads) -> Body
        requires { IsPlaced heads.now.ops self }
        ensures { result ≡ (op_in heads.now.ops self).body }
    {
        let typed = match self {
            Place::Head(number) => return heads.body(number),
            Place::Letter(typed) => typed,
        };
        typed.body(heads)
    }
}

impl Typed {
    fn dot(self, heads: &Heads) -> Dot
        requires { IsTypedIn heads.now.ops self }
        ensures { result ≡ (typed_op (head_of heads.now.ops self.head) self).dot }
    {
        let first = heads.dot(self.head);
        Dot {
            site: first.site,
            seq: first.seq + u32::from(self.behind),
        }
    }

    fn deps(self, heads: &Heads) -> Vector
        requires { IsTypedIn heads.now.ops self }
        ensures { result ≡ (typed_op (head_of heads.now.ops self.head) self).deps }
    {
        let dot = self.dot(heads);
        let mut deps = heads.deps(self.head);
        deps.set(dot.site, dot.seq - 1);
        deps
    }

    fn body(self, heads: &Heads) -> Body
        requires { IsTypedIn heads.now.ops self }
        ensures { result ≡ (typed_op (head_of heads.now.ops self.head) self).body }
    {
        let first = heads.dot(self.head);
        let before = Dot {
            site: first.site,
            seq: first.seq + u32::from(self.behind - 1),
        };
        Body::Insert {
            slot: Slot::At {
                atom: AtomId::of(before),
                bit: Bit::Right,
            },
            run: Run::one(Atom::of(&[self.letter])),
        }
    }
}
