// How a world begins.
ghost use Rattle.std.specs.Prelude.{◌≡◌, ◌≤◌, ◌-◌, ◌++◌, length, map, vec_len, IfOk, OnOk};
ghost use Rattle.td_base.specs.declared.site.TheConstants.{MAX_SITE};
ghost use Rattle.td_machine.specs.History.{IsConsistent};
ghost use Rattle.td_replica.specs.Replica.{ReplicaValue};
ghost use Rattle.td_world.specs.World.{AreSites, IsWorld, new_world, world_of};
ghost use Rattle.td_world.specs.Promises.{NobodyReady, IsPromised};
ghost use Rattle.td_world.specs.Parts.{new_posts};

use crate::post::Post;
use crate::world::World;
use std::alloc::Global;
use td_base::{Memory, Site};
use td_doc::Doc;
use td_replica::Replica;

impl<D: Doc> World<D> {
    /// The world of n sites that have done nothing.
    pub fn new(alloc: Global, n: u8) -> Result<World<D>, Memory>
        requires some { 1 ≤ n }
        requires few { n ≤ MAX_SITE }
        ensures new { IfOk result (λ w. w ≡ new_world n) }
        ensures world { IfOk result (λ w. IsWorld w) }
        ensures promises { IfOk result (λ w. IsPromised w) }
        ensures nobody { IfOk result (λ w. NobodyReady w) }
    {
        let mut replicas = Vec::new(alloc);
        let mut passed = Vec::new(alloc);
        for place in 0..n {
            replicas.push(Replica::new(alloc, Site::at(place), n)?)?;
            passed.push(0)?;
        }
        Ok(World {
            replicas,
            posts: Vec::new(alloc),
            passed,
        })
    }

    /// The world of sites that did something before, the replicas of sites 1 to n in this order. Their histories are a
    /// consistent family. The messages are those that site 1 sent, then those of site 2, and so on.
    pub fn of_replicas(alloc: Global, replicas: Vec<Replica<D>>) -> Result<World<D>, Memory>
        requires sites { AreSites replicas.items }
        requires consistent { IsConsistent (map (λ (r : ReplicaValue). r.entries) replicas.items) }
        ensures sites { IfOk result (λ w. w ≡ world_of replicas.items) }
        ensures world { IfOk result (λ w. IsWorld w) }
        ensures promises { IfOk result (λ w. IsPromised w) }
    {
        let mut posts = Vec::new(alloc);
        let mut passed = Vec::new(alloc);
        for replica in &replicas {
            // its history is legal, and leads to its machine
            let _ = replica.entries();
            post_all(&mut posts, replica.site(), replica.sent())?;
            passed.push(0)?;
        }
        Ok(World {
            replicas,
            posts,
            passed,
        })
    }
}

// Notes all messages of a site, which has sent so many.
fn post_all(posts: &mut Vec<Post>, site: Site, count: u64) -> Result<(), Memory>
    ensures ok { OnOk result (posts.new.items ≡ posts.old.items ++ new_posts site count 0) }
{
    if count > u64::from(u32::MAX) {
        return Err(Memory);
    }
    for number in 0..count {
        posts.push(Post {
            site,
            number: number as u32 + 1,
        })?;
    }
    Ok(())
}
