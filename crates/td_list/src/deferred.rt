ghost use Rattle.std.specs.Prelude.{◌≡◌, ◌<◌, ◌^◌, ◌∷◌, IsTrue};
ghost use Rattle.td_list.specs.Items.{IsItem, items_before, items_from, items_after, renew, share_at, weight_of};
ghost use Rattle.td_list.specs.Deferred.{items_now, IsPending, IsDeferred};

use crate::item::{Item, Share};
use crate::sequence::Sequence;
use std::alloc::Global;
use std::marker::Model;
use td_base::Memory;

/// A list that is told the first change of an item at once, and those of its weight that follow only when another item
/// changes: who changes one item again and again changes the list twice.
#[derive(Drop)]
pub struct Deferred<S: Sequence> {
    list: S,
    pending: Option<Pending>,
}

// The item that changed last. It may weigh otherwise than the list has it.
#[derive(Clone, Copy, Debug)]
struct Pending {
    // as it is now
    item: Item,
    // the weight that the list has for it
    told: u32,
}

impl<S: Sequence> Model for Deferred<S> {
    ghost use Rattle.std.specs.Prelude.{List};
    ghost use Rattle.td_list.specs.Items.{Item};
    ghost use Rattle.td_list.specs.Deferred.{items_now, IsDeferred};

    ghost Value = { List Item };

    ghost view = { λ l. items_now l.pending (S.items l.list) };

    ghost invariant = { λ l. IsDeferred l.pending (S.items l.list) };
}

impl<S: Sequence> Sequence for Deferred<S> {
    ghost items = { λ l. l };

    fn empty(alloc: Global) -> Result<Deferred<S>, Memory> {
        Ok(Deferred {
            list: S::empty(alloc)?,
            pending: None,
        })
    }

    fn push(&mut self, piece: &[Item]) -> Result<(), Memory> {
        tell(&mut self.list, self.pending.take());
        self.list.push(piece)
    }

    fn insert_before(&mut self, name: u32, piece: &[Item]) -> Result<(), Memory> {
        tell(&mut self.list, self.pending.take());
        self.list.insert_before(name, piece)
    }

    fn remove(&mut self, name: u32) {
        tell(&mut self.list, self.pending.take());
        self.list.remove(name);
    }

    fn renew(&mut self, item: Item) {
        if let Some(pending) = &mut self.pending {
            if pending.item.name() == item.name() && pending.item.marked() == item.marked() {
                pending.item = item;
                return;
            }
        }
        tell(&mut self.list, self.pending.take());
        self.pending = Some(begin(&mut self.list, item));
    }

    fn get(&self, name: u32) -> Item {
        match self.pending {
            Some(pending) => pending.get(&self.list, name),
            None => self.list.get(name),
        }
    }

    fn first(&self) -> Option<u32> {
        self.list.first()
    }

    fn last(&self) -> Option<u32> {
        self.list.last()
    }

    fn next(&self, name: u32) -> Option<u32> {
        self.list.next(name)
    }

    fn next_marked(&self, name: u32) -> Option<u32> {
        self.list.next_marked(name)
    }

    fn is_before(&self, first: u32, second: u32) -> bool {
        self.list.is_before(first, second)
    }

    fn weight(&self) -> u32 {
        match self.pending {
            Some(pending) => pending.weight(&self.list),
            None => self.list.weight(),
        }
    }

    fn weight_before(&self, name: u32) -> u32 {
        match self.pending {
            Some(pending) => pending.weight_before(&self.list, name),
            None => self.list.weight_before(name),
        }
    }

    fn share_at(&self, unit: u32) -> Option<Share> {
        match self.pending {
            Some(pending) => pending.share_at(&self.list, unit),
            None => self.list.share_at(unit),
        }
    }
}

impl Pending {
    // The item of the list with a name.
    fn get<S: Sequence>(self, list: &S, name: u32) -> Item
        requires pending { IsPending self (S.items list.now) }
        requires there { IsItem name (S.items list.now) }
        ensures { items_from name (renew self.item (S.items list.now))
            ≡ result ∷ items_after name (renew self.item (S.items list.now)) }
    {
        if self.item.name() == name {
            self.item
        } else {
            list.get(name)
        }
    }

    // The weight of all items of the list.
    fn weight<S: Sequence>(self, list: &S) -> u32
        requires { IsPending self (S.items list.now) }
        ensures value { result ≡ weight_of (renew self.item (S.items list.now)) }
        ensures light { weight_of (S.items list.now) < 2 ^ 32 }
    {
        list.weight() - self.told + self.item.weight()
    }

    // Whether the list has the weight of now.
    fn is_told(self) -> bool
        ensures { IsTrue result → self.told ≡ self.item.weight }
    {
        self.told == self.item.weight()
    }

    // The weight of the items of the list before one.
    fn weight_before<S: Sequence>(self, list: &S, name: u32) -> u32
        requires pending { IsPending self (S.items list.now) }
        requires there { IsItem name (S.items list.now) }
        ensures { result ≡ weight_of (items_before name (renew self.item (S.items list.now))) }
    {
        let before = list.weight_before(name);
        if self.is_told() {
            return before;
        }
        if list.is_before(self.item.name(), name) {
            before - self.told + self.item.weight()
        } else {
            before
        }
    }

    // The item of the list with a unit of weight.
    fn share_at<S: Sequence>(self, list: &S, unit: u32) -> Option<Share>
        requires { IsPending self (S.items list.now) }
        ensures { result ≡ share_at unit (renew self.item (S.items list.now)) }
    {
        if self.is_told() {
            return list.share_at(unit);
        }
        if unit >= self.weight(list) {
            return None;
        }
        let before = list.weight_before(self.item.name());
        if unit < before {
            return list.share_at(unit);
        }
        let rest = unit - before;
        if rest < self.item.weight() {
            return Some(Share {
                name: self.item.name(),
                rest,
            });
        }
        list.share_at(unit - self.item.weight() + self.told)
    }
}

// Tells the list what is pending.
fn tell<S: Sequence>(list: &mut S, pending: Option<Pending>)
    requires { IsDeferred pending (S.items list.old) }
    ensures { S.items list.new ≡ items_now pending (S.items list.old) }
{
    let Some(pending) = pending else {
        return;
    };
    let now = pending.item;
    if pending.is_told() {
        return;
    }
    list.renew(now);
}

// Puts an item in place of the one of its name. What changes of its weight may wait from then on.
fn begin<S: Sequence>(list: &mut S, item: Item) -> Pending
    requires there { IsItem item.name (S.items list.old) }
    requires light { weight_of (renew item (S.items list.old)) < 2 ^ 31 }
    ensures pending { IsPending result (S.items list.new) }
    ensures items { renew result.item (S.items list.new) ≡ renew item (S.items list.old) }
{
    list.renew(item);
    Pending {
        item,
        told: item.weight(),
    }
}
