ghost use Rattle.std.specs.Prelude.{◌≡◌, ◌≤◌, All, length, IfOk};

use crate::room::stage::{Stage, site};
use std::alloc::Global;
use std::process::Abort;
use std::test::Fail;
use td_base::Site;

#[test]
fn what_is_lost_and_sent_twice_is_settled_after_the_close(rt: HostRuntime) {
    let homes = [site(&rt, 1), site(&rt, 5)];
    let mut stage = Stage::open(&rt, rt.alloc(), 5, &homes, &[4, 4], 2, 3);
    for call in 1..=4 {
        assert_eq!(rt; stage.ask(&rt, 0), Ok(call));
        assert_eq!(rt; stage.ask(&rt, 1), Ok(call));
        for place in 0..5 {
            stage.turn(&rt, place);
        }
        assert!(rt; stage.answer(&rt, 0).is_some());
        assert!(rt; stage.answer(&rt, 1).is_some());
    }
    assert_eq!(rt; stage.end(&rt, rt.alloc()).0, 8);
}

// Each of 64 sites, in order.
fn all_sites<R: Abort>(rt: &R, alloc: Global) -> Result<Vec<Site>, Fail>
    ensures count { IfOk result (λ sites. length sites.items ≡ 64) }
    ensures within { IfOk result (λ sites. All (λ site. site ≤ 64) sites.items) }
{
    let mut sites = Vec::new(alloc);
    for place in 0..64 {
        sites.push(site(rt, place + 1))?;
    }
    Ok(sites)
}

#[test]
fn sixty_four_sites_have_sixty_four_editors(rt: HostRuntime) -> Result<(), Fail> {
    let homes = all_sites(&rt, rt.alloc())?;
    let mut stage = Stage::open(&rt, rt.alloc(), 64, &homes, &[1; 64], 0, 0);
    for place in 0..64 {
        assert_eq!(rt; stage.ask(&rt, place), Ok(1));
    }
    for place in 0..64 {
        stage.turn(&rt, place);
    }
    assert_eq!(rt; stage.end(&rt, rt.alloc()).0, 64);
    Ok(())
}
