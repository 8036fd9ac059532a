ghost use Rattle.std.specs.Prelude.{◌≡◌, ◌<◌, ◌≤◌, ◌+◌, ◌-◌, ◌^◌, ◌++◌, ℕ, length, map, true, false, vec_len, vec_capacity, IfOk, OnOk, OnErr, IfSome, IsSome, IsTrue, Some};
ghost use Rattle.std.specs.List.{slice_get};
ghost use Rattle.std.specs.Option.{option_map};
ghost use Rattle.td_base.specs.declared.site.TheConstants.{MAX_SITE};
ghost use Rattle.td_base.specs.Lists.{In, kth};
ghost use Rattle.td_op.specs.declared.input.Input.TheVariants.{Take};
ghost use Rattle.td_op.specs.declared.message.Message.{Message};
ghost use Rattle.td_machine.specs.History.{IsConsistent};
ghost use Rattle.td_op.specs.Message.{sender};
ghost use Rattle.td_replica.specs.Replica.{ReplicaValue};
ghost use Rattle.td_world.specs.World.{IsWorld, family_of, new_world, replica, replica_from, size, world_of, moved, reply_to, MayTake};
ghost use Rattle.td_world.specs.Calls.{ask};
ghost use Rattle.td_world.specs.Parts.{new_posts, posted, looked_again};
ghost use Rattle.td_world.specs.Promises.{NobodyReady, IsPromised};

use crate::post::Post;
use crate::sites::{replica_of, step_of};
use std::alloc::Global;
use std::marker::Model;
use td_base::{Memory, Site};
use td_doc::Doc;
use td_op::{Input, Message, Reply, Request};
use td_replica::Replica;

/// Sites 1 to n side by side, and the messages that they sent, with numbers from 1 in the order of sending. Contracts
/// see a `WorldValue`.
#[derive(Drop)]
pub struct World<D: Doc> {
    // of site s at place s - 1
    pub(crate) replicas: Vec<Replica<D>>,
    pub(crate) posts: Vec<Post>,
    // of each site: so many messages from the first on are known there or not for it
    pub(crate) passed: Vec<usize>,
}

impl<D: Doc> Model for World<D> {
    ghost use Rattle.td_world.specs.World.{WorldValue};

    ghost Value = { WorldValue };

    ghost use Rattle.td_world.specs.Parts.{world_value, IsWorldParts};

    ghost view = { λ w. world_value w.replicas.items w.posts.items };

    ghost invariant = { λ w. IsWorldParts w.replicas.items w.posts.items w.passed.items };
}

impl<D: Doc> World<D> {
    /// The replica of a site.
    pub fn replica(&self, site: Site) -> &Replica<D>
        requires { site ≤ size self.now }
        ensures replica { result.now ≡ replica self.now site }
        ensures some { 1 ≤ site }
        ensures world { IsWorld self.now }
        ensures promises { IsPromised self.now }
    {
        replica_of(&self.replicas, site)
    }

    /// How many messages were sent.
    pub fn sent(&self) -> u64
        ensures sent { result ≡ length self.now.sent }
        ensures world { IsWorld self.now }
        ensures promises { IsPromised self.now }
    {
        self.posts.len() as u64
    }

    /// The message with this number, and the site that sent it; None exactly where no message has the number.
    pub fn message(&self, number: u64) -> Option<(Site, Message)>
        ensures message { result ≡ option_map (λ (m : Message). (sender m, m)) (kth number self.now.sent) }
        ensures world { IsWorld self.now }
        ensures promises { IsPromised self.now }
    {
        let message = self.numbered(number)?;
        Some((message.sender(), message))
    }

    // The message with this number.
    pub(crate) fn numbered(&self, number: u64) -> Option<Message>
        ensures message { result ≡ kth number self.now.sent }
        ensures world { IsWorld self.now }
        ensures promises { IsPromised self.now }
    {
        let sent = self.sent();
        if number == 0 || number > sent {
            return None;
        }
        Some(self.at(number as usize - 1))
    }

    /// How many sites there are. It takes no memory.
    pub fn size(&self) -> u8
        ensures size { result ≡ size self.now }
        ensures some { 1 ≤ result }
        ensures few { result ≤ MAX_SITE }
        ensures world { IsWorld self.now }
    {
        self.replicas.len() as u8
    }

    // The message at a place from 0, which is there.
    pub(crate) fn at(&self, k: usize) -> Message
        requires { k < length self.now.sent }
        ensures { slice_get self.now.sent k ≡ Some result }
    {
        message_of(&self.replicas, &self.posts[k])
    }

    // Whether the site sent the message at a place from 0.
    pub(crate) fn is_from(&self, site: Site, k: usize) -> bool
        ensures { IsTrue result → (m : Message) → slice_get self.now.sent k ≡ Some m → sender m ≡ site }
    {
        match self.posts.get(k) {
            Some(post) => post.site.number() == site.number(),
            None => false,
        }
    }

    /// A request of a site's editor.
    pub fn call(&mut self, site: Site, request: Request) -> Result<Reply, Memory>
        requires { site ≤ size self.old }
        ensures reply { IfOk result (λ reply. reply ≡ reply_to (ask site request) self.old) }
        ensures ok { OnOk result (self.new ≡ moved (ask site request) self.old) }
        ensures err { OnErr result (self.new ≡ self.old) }
        ensures world { IsWorld self.new }
        ensures promises { IsPromised self.new }
        ensures nobody { OnOk result (NobodyReady self.old → NobodyReady self.new) }
    {
        self.step(site, &Input::Local(request))
    }

    // One step of a site. What it sends comes after all that was sent before.
    pub(crate) fn step(&mut self, site: Site, input: &Input) -> Result<Reply, Memory>
        requires within { site ≤ size self.old }
        requires came { MayTake site input.now self.old }
        ensures reply { IfOk result (λ reply. reply ≡ reply_to (record { site = site; input = input.now }) self.old) }
        ensures ok { OnOk result (self.new ≡ moved (record { site = site; input = input.now }) self.old) }
        ensures err { OnErr result (self.new ≡ self.old) }
        ensures was { IsWorld self.old }
        ensures some { 1 ≤ site }
        ensures world { IsWorld self.new }
    {
        input.is_in_range();
        self.posts.reserve(2)?;
        let done = step_of(&mut self.replicas, site, input)?;
        post(&mut self.posts, site, done.before, done.after);
        look_again(&mut self.passed, site.place(), &done.reply);
        Ok(done.reply)
    }
}

// The message that is noted so.
fn message_of<D: Doc>(replicas: &[Replica<D>], post: &Post) -> Message
    requires { IsSome (posted replicas.now post.now) }
    ensures message { posted replicas.now post.now ≡ Some result }
    ensures some { 1 ≤ post.now.site }
{
    replicas[post.site.place()].message(u64::from(post.number))
}

// Notes the messages that a site sent after so many.
fn post(posts: &mut Vec<Post>, site: Site, before: u64, after: u64)
    requires order { before ≤ after }
    requires room { vec_len posts.old + (after - before) ≤ vec_capacity posts.old }
    requires few { after < 2 ^ 32 }
    ensures { posts.new.items ≡ posts.old.items ++ new_posts site (after - before) before }
{
    for number in before..after {
        posts.push_reserved(Post {
            site,
            number: number as u32 + 1,
        });
    }
}

// Where an operation that waited was dropped, it may be given again: all messages are looked at.
fn look_again(passed: &mut Vec<usize>, place: usize, reply: &Reply)
    requires { place < length passed.old.items }
    ensures { passed.new.items ≡ looked_again reply.now place passed.old.items }
{
    if let Reply::Dropped { .. } = reply {
        passed[place] = 0;
    }
}
