use crate::room::stage::{Stage, site};
use td_line::NotSent;

#[test]
fn an_editor_with_one_call_is_answered_once(rt: HostRuntime) {
    let homes = [site(&rt, 1)];
    let mut stage = Stage::open(&rt, rt.alloc(), 1, &homes, &[1], 0, 0);
    assert_eq!(rt; stage.ask(&rt, 0), Ok(1));
    assert_eq!(rt; stage.ask(&rt, 0), Err(NotSent::Busy { pending: 1 }));
    stage.turn(&rt, 0);
    assert_eq!(rt; stage.answer(&rt, 0), Some((1, 1)));
    assert_eq!(rt; stage.answer(&rt, 0), None);
    assert_eq!(rt; stage.look(&rt, 0), Some((1, 1)));
    assert_eq!(rt; stage.ask(&rt, 0), Err(NotSent::Spent { calls: 1 }));
    assert_eq!(rt; stage.end(&rt, rt.alloc()), (1, 0));
}

#[test]
fn a_request_that_no_turn_took_is_done_at_the_close(rt: HostRuntime) {
    let homes = [site(&rt, 2)];
    let mut stage = Stage::open(&rt, rt.alloc(), 2, &homes, &[1], 2, 3);
    assert_eq!(rt; stage.ask(&rt, 0), Ok(1));
    assert_eq!(rt; stage.end(&rt, rt.alloc()), (1, 1));
}
