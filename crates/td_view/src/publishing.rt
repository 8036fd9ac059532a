ghost use Rattle.std.specs.Prelude.{◌≡◌, ◌+◌, ◌≤◌, ◌^◌, ◌∷◌, ◌++◌, [], length, take, drop};
ghost use Rattle.std.specs.Prelude.{IfErr, IfOk, IfSome, IsTrue};
ghost use Rattle.td_view.specs.History.{head_of};
ghost use Rattle.td_view.specs.Publishes.{changed_all, AreLegal, EndsWith};
ghost use Rattle.td_view.specs.Deeds.{state_of, published, deeds_of};
ghost use Rattle.td_view.specs.Tied.{StandsAtEnd};

use crate::deed::Deed;
use crate::history::{Entry, Head, Publishes, extend};
use crate::shown::Shown;
use crate::table::{Press, Shows};
use std::alloc::AllocError;
use std::marker::Brand;
use std::sync::Wait;
use td_op::Change;

/// A publish that is being made of the text shown.
#[derive(Clone, Copy)]
pub struct Publishing<'a> {
    /// Its number, from 1.
    pub count: u64,
    /// How many entries the history of the replica has.
    pub upto: u64,
    /// What changes in the text, one after the other.
    pub changes: &'a [Change],
    /// 0, or by which the writer ends, a number that goes down to 1.
    pub last: u64,
}

/// Enters a publish in the history. None only where the history has another publish already, which never comes.
pub fn enter(
    head: &Head,
    past: &Publishes,
    shown: &Shown,
    publishing: &Publishing<'_>,
) -> Option<Publishes>
    requires head { head.now ≡ head_of past.now.book }
    requires count { (publishing.now.count ≡ length past.now.log + 1) × (publishing.now.count ≤ 2 ^ 63) }
    requires legal { AreLegal (past.now.log ++ published publishing.now shown.now.atoms ∷ []) }
    ensures book { IfSome result (λ next. next.book ≡ past.now.book) }
    ensures log { IfSome result (λ next. next.log ≡ past.now.log ++ published publishing.now shown.now.atoms ∷ []) }
{
    enter_picked::<Brand>(head, past, shown, publishing)
}

// The same, for an entry that the call picks.
fn enter_picked<K: Entry>(
    head: &Head,
    past: &Publishes,
    shown: &Shown,
    publishing: &Publishing<'_>,
) -> Option<Publishes>
    requires entry { K.entry ≡ published publishing.now shown.now.atoms }
    requires head { head.now ≡ head_of past.now.book }
    requires count { (publishing.now.count ≡ length past.now.log + 1) × (publishing.now.count ≤ 2 ^ 63) }
    requires legal { AreLegal (past.now.log ++ published publishing.now shown.now.atoms ∷ []) }
    ensures book { IfSome result (λ next. next.book ≡ past.now.book) }
    ensures log { IfSome result (λ next. next.log ≡ past.now.log ++ published publishing.now shown.now.atoms ∷ []) }
{
    let _ = shown;
    extend::<K>(head, past, publishing.count - 1)
}

/// Hands the press the deeds of a publish that it has not got yet. False where memory ran out.
pub fn give(
    press: &mut Press,
    given: &mut usize,
    publishing: &Publishing<'_>,
    past: &Publishes,
) -> bool
    requires given { drop press.old.behind press.old.log.items ≡ take given.old (deeds_of publishing.now past.now) }
    requires few { given.old ≤ length publishing.now.changes.now + 1 }
    ensures desk { press.new.desk ≡ press.old.desk }
    ensures given { drop press.new.behind press.new.log.items ≡ take given.new (deeds_of publishing.now past.now) }
    ensures few { given.new ≤ length publishing.now.changes.now + 1 }
    ensures all { IsTrue result → drop press.new.behind press.new.log.items ≡ deeds_of publishing.now past.now }
{
    let changes = publishing.changes;
    let mut at = *given;
    while at < changes.len() {
        let Ok(()) = press.append(Deed::Alter(changes[at])) else {
            *given = at;
            return false;
        };
        at += 1;
    }
    if at == changes.len() {
        let stamp = Deed::Stamp {
            upto: publishing.upto,
            last: publishing.last,
            count: publishing.count,
            past: past.again(),
        };
        let Ok(()) = press.append(stamp) else {
            *given = at;
            return false;
        };
        at += 1;
    }
    *given = at;
    true
}

/// Shows the publish whose deeds the press has. It may wait for readers.
pub fn show<R: Wait>(
    rt: &R,
    press: Press,
    publishing: &Publishing<'_>,
    next: &Publishes,
) -> (Press, Result<(), AllocError>)
    requires pending { drop press.behind press.log.items ≡ deeds_of publishing.now next.now }
    requires counted { publishing.now.count ≡ length next.now.log }
    requires legal { AreLegal next.now.log }
    requires ends { EndsWith next.now.log (published publishing.now press.desk.shown.value.atoms) }
    requires book { next.now.book ≡ press.desk.shown.value.past.book }
    ensures stands { IfOk result.1 (λ _. StandsAtEnd result.0.desk.shown.value) }
    ensures shown { IfOk result.1 (λ _. state_of result.0.desk.shown.value
        ≡ (
          publishing.now.upto,
          publishing.now.last,
          publishing.now.count,
          changed_all publishing.now.changes.now press.desk.shown.value.atoms,
          next.now,
        )) }
    ensures nothing { IfOk result.1 (λ _. drop result.0.behind result.0.log.items ≡ []) }
    ensures same { IfErr result.1 (λ _. (result.0.desk.shown.value ≡ press.desk.shown.value)
        × (drop result.0.behind result.0.log.items ≡ drop press.behind press.log.items)) }
{
    let _ = publishing;
    let _ = next;
    press.publish_as::<Shows, R>(rt)
}
