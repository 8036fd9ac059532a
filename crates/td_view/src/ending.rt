ghost use Rattle.std.specs.Prelude.{◌≡◌, ◌<◌, ◌^◌, ◌+◌, ◌++◌, ◌∷◌, [], length, drop, None, IfOk, IfSome};
ghost use Rattle.td_view.specs.History.{head_of};
ghost use Rattle.td_view.specs.Publishes.{AreLegal};
ghost use Rattle.td_view.specs.Deeds.{publish_of, published};
ghost use Rattle.td_view.specs.Tied.{StandsAtEnd};
ghost use Rattle.td_view.specs.Values.{tolds};

use crate::ended::Ended;
use crate::history::{Head, Publishes};
use crate::publishing::{Publishing, enter, give, show};
use crate::table::Press;
use crate::told::Told;
use crate::writer::{MOST, Writer};
use std::alloc::Global;
use std::sync::Wait;
use td_base::Memory;

impl Writer {
    /// Ends the writer: so many publishes more of the text that is shown, with numbers that go down to 1, and what each
    /// tells. No other publish follows. It may wait for readers. After `Memory` the writer is gone.
    pub fn end<R: Wait>(
        self,
        rt: &R,
        alloc: Global,
        count: u32,
    ) -> Result<(Ended, Vec<Told>), Memory>
        requires { self.owed ≡ None }
        ensures { IfOk result (λ ended. ended.1.items ≡ tolds self.views self.publishes self.shown count) }
    {
        let Writer {
            mut press,
            head,
            mut past,
            count: mut number,
            owed: _,
            given: _,
        } = self;
        let mut all = Vec::new(alloc);
        let mut last = u64::from(count);
        let upto = press.published().upto();
        while last > 0 {
            if number >= MOST || all.reserve(1).is_err() {
                press.take(rt);
                return Err(Memory);
            }
            let publishing = Publishing {
                count: number + 1,
                upto,
                changes: &[],
                last,
            };
            let (after, next) = count_down(rt, press, &head, &past, &publishing);
            press = after;
            let Some(next) = next else {
                press.take(rt);
                return Err(Memory);
            };
            past = next;
            number += 1;
            all.push_reserved(Told::new(past.again(), number));
            last -= 1;
        }
        Ok((Ended::new(press), all))
    }
}

// One publish more.
fn count_down<R: Wait>(
    rt: &R,
    press: Press,
    head: &Head,
    past: &Publishes,
    publishing: &Publishing<'_>,
) -> (Press, Option<Publishes>)
    requires head { head.now ≡ head_of past.now.book }
    requires counted { (publishing.now.count ≡ length past.now.log + 1) × (publishing.now.count < 2 ^ 63) }
    requires shown { press.desk.shown.value.past ≡ past.now }
    requires nothing { drop press.behind press.log.items ≡ [] }
    requires legal { AreLegal (past.now.log ++ published publishing.now press.desk.shown.value.atoms ∷ []) }
    ensures stands { IfSome result.1 (λ next. StandsAtEnd result.0.desk.shown.value
        × (result.0.desk.shown.value.past ≡ next) × (drop result.0.behind result.0.log.items ≡ [])) }
    ensures same { IfSome result.1 (λ next.
        publish_of result.0.desk.shown.value ≡ published publishing.now press.desk.shown.value.atoms) }
    ensures past { IfSome result.1 (λ next. (next.book ≡ past.now.book)
        × (next.log ≡ past.now.log ++ published publishing.now press.desk.shown.value.atoms ∷ [])) }
{
    let mut press = press;
    let Some(next) = enter(head, past, press.published(), publishing) else {
        return (press, None);
    };
    let mut given = 0;
    if !give(&mut press, &mut given, publishing, &next) {
        return (press, None);
    }
    let (press, shown) = show(rt, press, publishing, &next);
    if shown.is_err() {
        return (press, None);
    }
    (press, Some(next))
}
