ghost use Rattle.std.specs.Prelude.{◌≡◌, ◌≤◌, length};
ghost use mathlib.Core.List.{IsPrefix};
ghost use Rattle.td_view.specs.Publishes.{AreLegal};

use crate::history::Publishes;

/// Of two beginnings of one history the first begins the second, where it is no longer.
pub fn compare(first: &Publishes, second: &Publishes)
    requires book { second.now.book ≡ first.now.book }
    requires shorter { length first.now.log ≤ length second.now.log }
    ensures prefix { IsPrefix first.now.log second.now.log }
    ensures legal { AreLegal second.now.log }
{
    let mut both = first.again();
    both.learn(second);
}

/// The longer of two beginnings of one history, with its length.
pub fn longer(first: &Publishes, count: u64, second: &Publishes, other: u64) -> (Publishes, u64)
    requires book { second.now.book ≡ first.now.book }
    requires counts { (count ≡ length first.now.log) × (other ≡ length second.now.log) }
    ensures book { result.0.book ≡ first.now.book }
    ensures count { result.1 ≡ length result.0.log }
    ensures first { IsPrefix first.now.log result.0.log }
    ensures second { IsPrefix second.now.log result.0.log }
    ensures legal { AreLegal result.0.log }
{
    if count < other {
        compare(first, second);
        (second.again(), other)
    } else {
        compare(second, first);
        (first.again(), count)
    }
}
