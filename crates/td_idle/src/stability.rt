ghost use Rattle.std.specs.Prelude.{◌≡◌, ◌≤◌, length};
ghost use Rattle.td_idle.specs.Stable.{vector_meet, had_after, known_of, stable};

use td_base::Site;
use td_clock::Vector;
use td_doc::Doc;
use td_op::Op;
use td_replica::Replica;

/// The operations that every site is known to have. Takes no memory.
pub fn stable<D: Doc>(replica: &Replica<D>) -> Vector
    ensures { result ≡ stable replica.now.machine }
{
    replica.entries();
    let mut all = *replica.have();
    for place in 0..all.size() {
        meet(&mut all, &known_of(replica, Site::at(place)));
    }
    all
}

// What a site is known to have.
fn known_of<D: Doc>(replica: &Replica<D>, site: Site) -> Vector
    requires { site ≤ replica.now.machine.size }
    ensures value { result ≡ known_of replica.now.machine site }
    ensures size { length result ≡ replica.now.machine.size }
{
    replica.entries();
    if site == replica.site() {
        return *replica.have();
    }
    match replica.last_of(site) {
        Some(op) => had_after(&op),
        None => Vector::new(replica.size()),
    }
}

// What the site of an operation had right after it.
fn had_after(op: &Op) -> Vector
    ensures { result ≡ had_after op.now }
{
    let mut had = *op.deps();
    had.set(op.dot().site, op.dot().seq);
    had
}

// Takes the lesser number in each place.
fn meet(all: &mut Vector, other: &Vector)
    requires { length all.old ≡ length other.now }
    ensures { all.new ≡ vector_meet all.old other.now }
{
    for place in 0..all.size() {
        let site = Site::at(place);
        all.set(site, all.get(site).min(other.get(site)));
    }
}
