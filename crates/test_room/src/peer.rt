// Links between workers that are opened and settled, with nothing sent.
ghost use Rattle.std.specs.Prelude.{◌≤◌};

use std::alloc::Global;
use std::sync::Wait;
use std::test::Fail;
use td_base::Memory;
use td_peer::{Loss, meet_all, open_rows};

const LOSSLESS: Loss = Loss {
    drop_each: 0,
    double_each: 0,
};

fn meet<R: Wait>(rt: &R, alloc: Global, n: u8) -> Result<usize, Memory>
    requires { n ≤ 64 }
{
    let rows = open_rows(alloc, n, LOSSLESS)?;
    let count = rows.len();
    meet_all(rt, alloc, rows)?;
    Ok(count)
}

#[test]
fn workers_of_one_to_sixty_four_sites_meet(rt: HostRuntime) -> Result<(), Fail> {
    for n in [1, 2, 5, 64] {
        assert_eq!(rt; meet(&rt, rt.alloc(), n)?, n as usize);
    }
    Ok(())
}
