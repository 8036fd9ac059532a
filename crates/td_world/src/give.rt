// What is given to a site: a message by its number, or all that it does not know.
ghost use Rattle.std.specs.Prelude.{◌≡◌, ◌<◌, ◌≤◌, ◌+◌, ◌-◌, ◌++◌, ℕ, length, true, Some, IfOk, OnOk, OnErr};
ghost use Rattle.std.specs.List.{slice_get};
ghost use Rattle.td_base.specs.Lists.{In};
ghost use Rattle.td_op.specs.declared.input.Input.TheVariants.{Next, Take};
ghost use Rattle.td_op.specs.declared.message.Message.{Message};
ghost use Rattle.td_world.specs.World.{IsWorld, size, moved, moved_all, reply_to};
ghost use Rattle.td_op.specs.Message.{is_for};
ghost use Rattle.td_world.specs.Calls.{is_wanted, take, nexts_after, give_moves, took, found_moves, found_given};
ghost use Rattle.td_world.specs.Calls.{numbered_moves, numbered_given, wanted_moves, wanted_given, wanted_answer};
ghost use Rattle.td_world.specs.Calls.{offered, offer_moves, give_all_moves, give_all_given, IsStopped, IsCutShort};
ghost use Rattle.td_world.specs.Parts.{IsPassed, ArePassed};
ghost use Rattle.td_world.specs.Promises.{NobodyReady, IsPromised};

use crate::world::World;
use std::alloc::Global;
use td_base::{Memory, Site};
use td_doc::Doc;
use td_op::{Input, Message, Reply};
use td_replica::Given;

impl<D: Doc> World<D> {
    /// Gives a site the message with the number, where there is one and it is for the site, and then takes what waits
    /// there and is ready.
    pub fn give(&mut self, to: Site, number: u64) -> Result<Given, Memory>
        requires { to ≤ size self.old }
        ensures given { IfOk result (λ given. given ≡ numbered_given to number self.old) }
        ensures ok { OnOk result (self.new ≡ moved_all (numbered_moves to number self.old) self.old) }
        ensures err { OnErr result (IsStopped (numbered_moves to number self.old) self.old self.new) }
        ensures world { IsWorld self.new }
        ensures promises { IsPromised self.new }
        ensures nobody { OnOk result (NobodyReady self.old → NobodyReady self.new) }
    {
        let sent = self.numbered(number);
        match &sent {
            Some(message) => self.give_to(to, message),
            None => Ok(Given::NoSuch),
        }
    }

    /// Gives a site each message that was sent before, is for the site, and is not known there when its turn comes;
    /// with the numbers.
    pub fn give_all(&mut self, alloc: Global, to: Site) -> Result<Vec<(u64, Given)>, Memory>
        requires { to ≤ size self.old }
        ensures given { IfOk result (λ given. given.items ≡ give_all_given to self.old) }
        ensures ok { OnOk result (self.new ≡ moved_all (give_all_moves to self.old) self.old) }
        ensures err { OnErr result (IsCutShort (give_all_moves to self.old) self.old self.new) }
        ensures world { IsWorld self.new }
        ensures promises { IsPromised self.new }
        ensures nobody { OnOk result (NobodyReady self.old → NobodyReady self.new) }
    {
        let mut given = Vec::new(alloc);
        for k in self.passed_by(to)..self.posts.len() {
            self.note_given(to, k, &mut given)?;
        }
        Ok(given)
    }

    /// Gives a site the message with the number, where there is one, it is for the site, and is not known there; and
    /// then takes what waits there and is ready. None where it is not given.
    pub fn offer(&mut self, to: Site, number: u64) -> Result<Option<Given>, Memory>
        requires { to ≤ size self.old }
        ensures given { IfOk result (λ given. given ≡ offered to number self.old) }
        ensures ok { OnOk result (self.new ≡ moved_all (offer_moves to number self.old) self.old) }
        ensures err { OnErr result (IsStopped (offer_moves to number self.old) self.old self.new) }
        ensures world { IsWorld self.new }
        ensures promises { IsPromised self.new }
        ensures nobody { OnOk result (NobodyReady self.old → NobodyReady self.new) }
    {
        let sent = self.numbered(number);
        match &sent {
            Some(message) => {
                self.offer_at(to, number as usize - 1, message, &Input::Take(*message))
            }
            None => Ok(None),
        }
    }

    /// All messages up to this number are known to the site, or not for it. It takes no memory.
    pub fn passed(&self, site: Site) -> u64
        requires { site ≤ size self.now }
        ensures { ArePassed site self.now result }
    {
        self.passed_by(site) as u64
    }

    // Gives the message, where the site wants it.
    fn offer_to(
        &mut self,
        to: Site,
        message: &Message,
        input: &Input,
    ) -> Result<Option<Given>, Memory>
        requires input { input.now ≡ Take message.now }
        requires within { to ≤ size self.old }
        requires sent { In message.now self.old.sent }
        requires world { IsWorld self.old }
        ensures given { IfOk result (λ given. given ≡ wanted_answer to message.now self.old) }
        ensures ok { OnOk result (self.new ≡ moved_all (wanted_moves to message.now self.old) self.old) }
        ensures err { OnErr result (IsStopped (wanted_moves to message.now self.old) self.old self.new) }
        ensures world { IsWorld self.new }
        ensures some { 1 ≤ to }
    {
        if !self.is_wanted(to, message) {
            return Ok(None);
        }
        Ok(Some(self.take(to, message, input)?))
    }

    // Gives the message, where it is for the site.
    fn give_to(&mut self, to: Site, message: &Message) -> Result<Given, Memory>
        requires within { to ≤ size self.old }
        requires sent { In message.now self.old.sent }
        requires world { IsWorld self.old }
        ensures given { IfOk result (λ given. given ≡ found_given to (Some message.now) self.old) }
        ensures ok { OnOk result (self.new ≡ moved_all (found_moves to (Some message.now) self.old) self.old) }
        ensures err { OnErr result (IsStopped (found_moves to (Some message.now) self.old) self.old self.new) }
        ensures world { IsWorld self.new }
        ensures some { 1 ≤ to }
    {
        if !message.is_for(to) {
            return Ok(Given::Stray);
        }
        self.take(to, message, &Input::Take(*message))
    }

    // The site takes the message, and then what waits and is ready.
    fn take(&mut self, to: Site, message: &Message, input: &Input) -> Result<Given, Memory>
        requires input { input.now ≡ Take message.now }
        requires within { to ≤ size self.old }
        requires sent { In message.now self.old.sent }
        requires addressed { is_for to message.now ≡ true }
        ensures given { IfOk result (λ given. given ≡ took to message.now self.old) }
        ensures ok { OnOk result (self.new ≡ moved_all (give_moves to message.now self.old) self.old) }
        ensures err { OnErr result (IsStopped (give_moves to message.now self.old) self.old self.new) }
        ensures world { IsWorld self.new }
        ensures some { 1 ≤ to }
    {
        let reply = self.step_taking(to, message, input)?;
        let next = self.go_on(to)?;
        Ok(Given::Took { reply, next })
    }

    // The step of a site that takes the message.
    fn step_taking(&mut self, to: Site, message: &Message, input: &Input) -> Result<Reply, Memory>
        requires input { input.now ≡ Take message.now }
        requires within { to ≤ size self.old }
        requires sent { In message.now self.old.sent }
        requires addressed { is_for to message.now ≡ true }
        ensures reply { IfOk result (λ reply. reply ≡ reply_to (take to message.now) self.old) }
        ensures ok { OnOk result (self.new ≡ moved (take to message.now) self.old) }
        ensures err { OnErr result (self.new ≡ self.old) }
        ensures was { IsWorld self.old }
        ensures some { 1 ≤ to }
        ensures world { IsWorld self.new }
    {
        self.step(to, input)
    }

    // The site takes what waits, as long as something is ready; how often is answered.
    fn go_on(&mut self, site: Site) -> Result<u32, Memory>
        requires { site ≤ size self.old }
        ensures count { IfOk result (λ count. count ≡ length (nexts_after site self.old)) }
        ensures ok { OnOk result (self.new ≡ moved_all (nexts_after site self.old) self.old) }
        ensures err { OnErr result (IsStopped (nexts_after site self.old) self.old self.new) }
        ensures world { IsWorld self.new }
    {
        let waiting = self.replica(site).waiting();
        for k in 0..waiting {
            if !self.replica(site).ready() {
                return Ok(k);
            }
            self.take_next(site)?;
        }
        Ok(waiting)
    }

    // The site takes the next of what waits there.
    fn take_next(&mut self, site: Site) -> Result<Reply, Memory>
        requires { site ≤ size self.old }
        ensures ok { OnOk result (self.new ≡ moved (record { site = site; input = Next }) self.old) }
        ensures err { OnErr result (self.new ≡ self.old) }
        ensures world { IsWorld self.new }
    {
        self.step(site, &Input::Next)
    }

    // Gives a site each message that `give_all` gives it, and answers how many these are.
    pub(crate) fn give_each(&mut self, to: Site) -> Result<u64, Memory>
        requires { to ≤ size self.old }
        ensures count { IfOk result (λ count. count ≡ length (give_all_given to self.old)) }
        ensures few { IfOk result (λ count. count ≤ length self.old.sent) }
        ensures ok { OnOk result (self.new ≡ moved_all (give_all_moves to self.old) self.old) }
        ensures err { OnErr result (IsStopped (give_all_moves to self.old) self.old self.new) }
        ensures world { IsWorld self.new }
    {
        let mut count = 0;
        for k in self.passed_by(to)..self.posts.len() {
            if self.give_at(to, k)?.is_some() {
                count += 1;
            }
        }
        Ok(count)
    }

    // Gives the message at the place, where it is wanted, and notes that with its number.
    fn note_given(
        &mut self,
        to: Site,
        k: usize,
        given: &mut Vec<(u64, Given)>,
    ) -> Result<(), Memory>
        requires within { to ≤ size self.old }
        requires sent { k < length self.old.sent }
        requires fits { k < usize.MAX }
        requires world { IsWorld self.old }
        ensures given { OnOk result ((m : Message) → slice_get self.old.sent k ≡ Some m
            → given.new.items ≡ given.old.items ++ wanted_given to (k + 1) m self.old) }
        ensures ok { OnOk result ((m : Message) → slice_get self.old.sent k ≡ Some m
            → self.new ≡ moved_all (wanted_moves to m self.old) self.old) }
        ensures err { OnErr result ((m : Message) → slice_get self.old.sent k ≡ Some m
            → IsCutShort (wanted_moves to m self.old) self.old self.new) }
        ensures world { IsWorld self.new }
    {
        given.reserve(1)?;
        if let Some(took) = self.give_at(to, k)? {
            given.push_reserved((k as u64 + 1, took));
        }
        Ok(())
    }

    // Gives the message at the place, where it is wanted. One that the site sent itself is not looked at.
    fn give_at(&mut self, to: Site, k: usize) -> Result<Option<Given>, Memory>
        requires within { to ≤ size self.old }
        requires sent { k < length self.old.sent }
        requires world { IsWorld self.old }
        ensures given { IfOk result (λ given. (m : Message) → slice_get self.old.sent k ≡ Some m
            → given ≡ wanted_answer to m self.old) }
        ensures ok { OnOk result ((m : Message) → slice_get self.old.sent k ≡ Some m
            → self.new ≡ moved_all (wanted_moves to m self.old) self.old) }
        ensures err { OnErr result ((m : Message) → slice_get self.old.sent k ≡ Some m
            → IsStopped (wanted_moves to m self.old) self.old self.new) }
        ensures world { IsWorld self.new }
    {
        if self.is_from(to, k) {
            self.pass_over(to, k);
            return Ok(None);
        }
        // a message has some 240 bytes: it is made where it is given
        let input = Input::Take(self.at(k));
        match &input {
            Input::Take(message) => self.offer_at(to, k, message, &input),
            Input::Local(_) | Input::Next => Ok(None),
        }
    }

    // Gives the message at the place, where it is wanted. Where all before it need not be looked at again, and it
    // neither, that is noted.
    fn offer_at(
        &mut self,
        to: Site,
        k: usize,
        message: &Message,
        input: &Input,
    ) -> Result<Option<Given>, Memory>
        requires input { input.now ≡ Take message.now }
        requires within { to ≤ size self.old }
        requires sent { slice_get self.old.sent k ≡ Some message.now }
        requires world { IsWorld self.old }
        ensures given { IfOk result (λ given. given ≡ wanted_answer to message.now self.old) }
        ensures ok { OnOk result (self.new ≡ moved_all (wanted_moves to message.now self.old) self.old) }
        ensures err { OnErr result (IsStopped (wanted_moves to message.now self.old) self.old self.new) }
        ensures world { IsWorld self.new }
        ensures some { 1 ≤ to }
    {
        let given = self.offer_to(to, message, input)?;
        self.pass_by(to, k, message);
        Ok(given)
    }

    // Whether the message is for the site and not known there.
    fn is_wanted(&self, to: Site, message: &Message) -> bool
        requires { to ≤ size self.now }
        ensures { result ≡ is_wanted to message.now self.now }
    {
        message.is_for(to) && !self.replica(to).known(message)
    }

    // How many messages, from the first on, are known to the site or not for it.
    fn passed_by(&self, site: Site) -> usize
        requires { site ≤ size self.now }
        ensures passed { ArePassed site self.now result }
        ensures some { 1 ≤ site }
    {
        self.passed[site.place()]
    }

    // Where all messages before this one need not be looked at again, and this one neither, that is noted.
    fn pass_by(&mut self, to: Site, k: usize, message: &Message)
        requires within { to ≤ size self.old }
        requires sent { slice_get self.old.sent k ≡ Some message.now }
        requires world { IsWorld self.old }
        ensures world { IsWorld self.new }
        ensures same { self.new ≡ self.old }
    {
        let known = !self.is_wanted(to, message);
        if known {
            self.pass_over(to, k);
        }
    }

    // The message at the place need not be looked at again. Where none before it need be, that is noted.
    fn pass_over(&mut self, to: Site, k: usize)
        requires within { to ≤ size self.old }
        requires sent { k < length self.old.sent }
        requires passed { IsPassed to self.old k }
        ensures world { IsWorld self.new }
        ensures same { self.new ≡ self.old }
    {
        let place = to.place();
        if self.passed[place] == k {
            self.passed[place] = k + 1;
        }
    }
}
