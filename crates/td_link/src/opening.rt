ghost use Rattle.std.specs.Prelude.{◌≡◌, ◌≤◌, ◌<◌, [], Some, None, true, false, IfOk};
ghost use Rattle.crossbeam_queue.specs.Passes.{view, IsPassOf};
ghost use Rattle.td_link.specs.Rule.{log};

use crate::item::Item;
use crate::rule::{End, Line};
use crate::rx::Rx;
use crate::steps::{Marking, Parts};
use crate::tx::Tx;
use std::alloc::Global;
use std::marker::Brand;
use std::sync::Arc;
use td_base::Memory;

/// The two ends of a new link whose queue can hold `cap` items.
pub fn link<T: Item + Send>(
    alloc: Global,
    cap: u32,
    mark: T::Mark,
) -> Result<(Tx<T>, Rx<T>), Memory>
    requires some { 0 < cap }
    requires few { cap ≤ 65536 }
    ensures sender { IfOk result (λ ends. (ends.0.cap ≡ cap) × (ends.0.mark ≡ Some mark) × (ends.0.sent ≡ [])) }
    ensures taker { IfOk result (λ ends.
        ends.1 ≡ record { link = ends.0.link; cap = cap; mark = Some mark; taken = [] }) }
{
    let (line, mut sender) = Line::<T>::ruled(alloc, cap as usize)?;
    let taker = part(&line, &mut sender, &mark);
    let line = Arc::new(alloc, line)?;
    let theirs = Arc::try_clone(&line)?;
    let tx = Tx { line, pass: sender };
    let rx = Rx {
        line: theirs,
        pass: taker,
    };
    Ok((tx, rx))
}

// Cuts the right to take off the one pass of a new queue.
fn part<T: Item>(line: &Line<T>, pass: &mut End<T>, mark: &T::Mark) -> End<T>
    requires queue { IsPassOf line.now pass.old }
    requires first { view pass.old ≡ log true true None [] [] }
    ensures queue { IsPassOf line.now pass.new × IsPassOf line.now result }
    ensures sender { view pass.new ≡ log true false (Some mark.now) [] [] }
    ensures taker { view result ≡ log false true (Some mark.now) [] [] }
{
    part_marked::<T, Brand>(line, pass, mark)
}

// The same, for a mark that the call picks.
fn part_marked<T: Item, K: Marking<T::Mark>>(
    line: &Line<T>,
    pass: &mut End<T>,
    mark: &T::Mark,
) -> End<T>
    requires mark { K.mark ≡ Some mark.now }
    requires queue { IsPassOf line.now pass.old }
    requires first { view pass.old ≡ log true true None [] [] }
    ensures queue { IsPassOf line.now pass.new × IsPassOf line.now result }
    ensures sender { view pass.new ≡ log true false (Some mark.now) [] [] }
    ensures taker { view result ≡ log false true (Some mark.now) [] [] }
{
    let _ = mark;
    line.another::<Parts<K>>(pass)
}
