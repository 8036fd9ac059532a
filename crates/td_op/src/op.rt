ghost use Rattle.std.specs.Prelude.{◌≡◌};
ghost use Rattle.std.specs.Option.{SomeIff};
ghost use Rattle.td_op.specs.Op.{OpValue, IsOp};

use crate::body::Body;
use std::marker::Model;
use td_base::Dot;
use td_clock::Vector;

/// An operation: its dot, the vector of the operations that were known where it was made, and what it does. Of its own
/// site exactly those before it were known, and neither its site nor one that the body names is past the vector's
/// size. No call takes memory.
#[derive(Clone, Copy, Debug, PartialEq, Eq)]
pub struct Op {
    dot: Dot,
    deps: Vector,
    body: Body,
}

impl Model for Op {
    ghost use Rattle.td_op.specs.Op.{OpValue, IsOp};

    ghost Value = { OpValue };

    ghost view = { λ o. record { dot = o.dot; deps = o.deps; body = o.body } };

    ghost invariant = { λ o. IsOp (record { dot = o.dot; deps = o.deps; body = o.body }) };

    ghost inverse = { λ x. record { dot = x.dot; deps = x.deps; body = x.body } };
}

impl Op {
    /// The operation with these parts, where they make one.
    pub fn new(dot: Dot, deps: Vector, body: Body) -> Option<Op>
        ensures { let op : OpValue = record { dot = dot; deps = deps; body = body } in SomeIff result (IsOp op) op }
    {
        let n = deps.size();
        let names_within = body.site().is_none_or(|site| site.number() <= n);
        if dot.site.number() > n || !names_within || deps.get(dot.site) + 1 != dot.seq {
            return None;
        }
        Some(Op { dot, deps, body })
    }

    /// The operation with these parts, which are known to make one.
    pub fn of(dot: Dot, deps: &Vector, body: &Body) -> Op
        requires { IsOp (record { dot = dot; deps = deps.now; body = body.now }) }
        ensures { result ≡ record { dot = dot; deps = deps.now; body = body.now } }
    {
        Op {
            dot,
            deps: *deps,
            body: *body,
        }
    }

    /// The name of the operation.
    pub fn dot(&self) -> Dot
        ensures dot { result ≡ self.now.dot }
        ensures op { IsOp self.now }
    {
        self.dot
    }

    /// How many operations of each site were known where it was made.
    pub fn deps(&self) -> &Vector
        ensures deps { result.now ≡ self.now.deps }
        ensures op { IsOp self.now }
    {
        &self.deps
    }

    /// What it does.
    pub fn body(&self) -> Body
        ensures body { result ≡ self.now.body }
        ensures op { IsOp self.now }
    {
        self.body
    }

    /// The same, lent: an insertion has some ninety bytes.
    pub fn body_ref(&self) -> &Body
        ensures body { result.now ≡ self.now.body }
        ensures op { IsOp self.now }
    {
        &self.body
    }
}
