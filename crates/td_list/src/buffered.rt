ghost use Rattle.std.specs.Prelude.{◌≡◌, ◌≢◌, ◌<◌, ◌≤◌, ◌+◌, ◌^◌, ◌++◌, ◌↔◌, IsTrue, List, length, nat_lt, drop, false, Option, IfOk, OnOk, OnErr};
ghost use Rattle.std.specs.Option.{ForSome};
ghost use Rattle.td_list.specs.Items.{Item, IsItem, AreApart, AreNew, items_before, items_from, items_after};
ghost use Rattle.td_list.specs.Items.{items_before_end, items_from_end, replace, place_of, first_name, first_marked, put_at, put_before, weight_of};

use crate::chunked::Chunked;
use crate::deferred::Deferred;
use crate::gap::GapBuffer;
use crate::item::{Item, Share};
use crate::line::Line;
use crate::scan::place_of;
use crate::sequence::Sequence;
use std::alloc::Global;
use std::marker::Model;
use td_base::Memory;

/// The list for millions of items: its chunks stand in chunks, which stand in chunks. A call scans a chunk of each
/// kind, of at most some tens of items, and one line of which each place stands for some tens of thousands of items.
/// Who types changes one chunk of items again and again: its weight is told to the chunks above once another changes,
/// and what is typed is put into it by some tens of items.
pub type List = Buffered<Deferred<Chunked<Chunked<Line>>>>;

/// A list in chunks, to which pieces that are put one within another are put together: each piece is put before the
/// last item of the one before it. Who puts pieces here and there puts each at once.
#[derive(Drop)]
pub struct Buffered<S: Sequence> {
    list: Chunked<S>,
    waiting: GapBuffer,
    // what waits is put before this item of the list, or at its end
    at: Option<u32>,
    // the last item of the piece that was put last, before which the next one is expected; nothing rests on it
    expected: Option<u32>,
}

impl<S: Sequence> Model for Buffered<S> {
    ghost use Rattle.std.specs.Prelude.{List};
    ghost use Rattle.td_list.specs.Items.{Item, put_at};
    ghost use Rattle.td_list.specs.Buffered.{IsBuffered};

    ghost Value = { List Item };

    ghost view = { λ b. put_at b.at b.waiting b.list };

    ghost invariant = { λ b. IsBuffered b.at b.waiting b.list };
}

impl<S: Sequence> Sequence for Buffered<S> {
    ghost items = { λ l. l };

    fn empty(alloc: Global) -> Result<Buffered<S>, Memory> {
        Ok(Buffered {
            list: Chunked::empty(alloc)?,
            waiting: GapBuffer::new(alloc),
            at: None,
            expected: None,
        })
    }

    fn push(&mut self, piece: &[Item]) -> Result<(), Memory> {
        self.waiting.flush(&mut self.list, self.at)?;
        self.at = None;
        self.expected = last_of(piece);
        let done = self.list.push(piece);
        self.list.light();
        done
    }

    fn insert_before(&mut self, name: u32, piece: &[Item]) -> Result<(), Memory> {
        if self.expected != Some(name) {
            return self.put_now(name, piece);
        }
        if self.put_within(name, piece)? {
            return Ok(());
        }
        if self.begin(name, piece)? {
            return Ok(());
        }
        self.put_now(name, piece)
    }

    fn remove(&mut self, name: u32) {
        match self.waiting.find(name) {
            Some(place) => self.waiting.remove(place),
            None => {
                self.list.apart();
                self.at = end_without(&self.list, self.at, name);
                self.list.remove(name);
            }
        }
    }

    fn renew(&mut self, item: Item) {
        match self.waiting.find(item.name()) {
            Some(place) => self.waiting.renew(place, item),
            None => self.list.renew(item),
        }
    }

    fn get(&self, name: u32) -> Item {
        match self.waiting.find(name) {
            Some(place) => self.waiting.item(place),
            None => self.list.get(name),
        }
    }

    fn first(&self) -> Option<u32> {
        or_waiting(&self.waiting, self.at, self.list.first())
    }

    fn last(&self) -> Option<u32> {
        let len = self.waiting.len();
        if len == 0 {
            return self.list.last();
        }
        match self.at {
            Some(_) => self.list.last(),
            None => self.waiting.name_at(len - 1),
        }
    }

    fn next(&self, name: u32) -> Option<u32> {
        match self.waiting.across(name) {
            Some(next) => Some(next),
            None => self.next_of(name),
        }
    }

    fn next_marked(&self, name: u32) -> Option<u32> {
        match self.waiting.find(name) {
            Some(place) => mark_from(&self.list, &self.waiting, self.at, place + 1),
            None => {
                self.list.apart();
                let mark = self.list.next_marked(name);
                or_mark(&self.list, &self.waiting, self.at, name, mark)
            }
        }
    }

    fn is_before(&self, first: u32, second: u32) -> bool {
        match self.waiting.find(first) {
            Some(place) => waits_before(&self.list, &self.waiting, self.at, place, second),
            None => is_listed_before(&self.list, &self.waiting, self.at, first, second),
        }
    }

    fn weight(&self) -> u32 {
        self.list.weight() + self.waiting.weight()
    }

    fn weight_before(&self, name: u32) -> u32 {
        match self.waiting.find(name) {
            Some(place) => weight_of_front(&self.list, self.at) + self.waiting.weight_to(place),
            None => weight_before_listed(&self.list, &self.waiting, self.at, name),
        }
    }

    fn share_at(&self, unit: u32) -> Option<Share> {
        let more = self.waiting.weight();
        if more == 0 {
            return self.list.share_at(unit);
        }
        let before = weight_of_front(&self.list, self.at);
        if unit < before {
            return self.list.share_at(unit);
        }
        let rest = unit - before;
        if rest < more {
            return self.waiting.share_at(rest);
        }
        self.list.share_at(unit - more)
    }
}

impl<S: Sequence> Buffered<S> {
    /// Puts a piece in place of all items from one on up to an end, which stays: an item that does not stand before
    /// it, or the end of the list. It costs what the chunks between them cost.
    pub fn replace(&mut self, first: u32, end: Option<u32>, piece: &[Item]) -> Result<(), Memory>
        requires first { IsItem first self.old }
        requires end { ForSome end (λ x. IsItem x self.old × (place_of first self.old ≤ place_of x self.old)) }
        requires apart { AreApart piece.now }
        requires new { AreNew piece.now (items_before first self.old ++ items_from_end end self.old) }
        requires light { weight_of self.old + weight_of piece.now < 2 ^ 31 }
        ensures ok { OnOk result (self.new ≡ replace first end piece.now self.old) }
        ensures err { OnErr result (self.new ≡ self.old) }
    {
        self.waiting.flush(&mut self.list, self.at)?;
        self.at = None;
        let done = self.list.replace(first, end, piece);
        self.list.light();
        done
    }

    /// Puts a piece in place of one item.
    pub fn replace_one(&mut self, name: u32, piece: &[Item]) -> Result<(), Memory>
        requires there { IsItem name self.old }
        requires some { 0 < length piece.now }
        requires apart { AreApart piece.now }
        requires new { AreNew piece.now (items_before name self.old ++ items_after name self.old) }
        requires light { weight_of self.old + weight_of piece.now < 2 ^ 31 }
        ensures ok { OnOk result (self.new ≡ items_before name self.old ++ (piece.now ++ items_after name self.old)) }
        ensures err { OnErr result (self.new ≡ self.old) }
    {
        self.waiting.flush(&mut self.list, self.at)?;
        self.at = None;
        let done = self.list.replace_one(name, piece);
        self.list.light();
        done
    }

    /// The items from one on that lie together with it, and the item behind them. Who goes over many items takes
    /// them so: within what is lent, nothing is looked for.
    pub fn lend_from(&self, name: u32) -> (&[Item], Option<u32>)
        requires { IsItem name self.now }
        ensures some { 0 < length result.0.now }
        ensures parts { (behind : List Item) × (items_from name self.now ≡ result.0.now ++ behind)
            × (result.1 ≡ first_name behind) }
    {
        match self.waiting.find(name) {
            Some(place) => {
                let lent = self.waiting.lend_from(place);
                let behind = from_waiting(&self.waiting, self.at, place + lent.len());
                (lent, behind)
            }
            None => {
                let (lent, behind) = self.list.lend_from(name);
                if self.waiting.len() == 0 {
                    return (lent, behind);
                }
                if !is_front(&self.list, self.at, name) {
                    return (lent, behind);
                }
                let (before, next) = up_to(lent, behind, self.at);
                let behind = or_waiting(&self.waiting, self.at, next);
                (before, behind)
            }
        }
    }

    // The item after one.
    fn next_of(&self, name: u32) -> Option<u32>
        requires { IsItem name self.now }
        ensures { result ≡ first_name (items_after name self.now) }
    {
        match self.waiting.find(name) {
            Some(place) => from_waiting(&self.waiting, self.at, place + 1),
            None => {
                self.list.apart();
                or_waiting(&self.waiting, self.at, self.list.next(name))
            }
        }
    }

    // Puts a piece before an item, if the item waits and the next piece is expected there, and says so.
    fn put_within(&mut self, name: u32, piece: &[Item]) -> Result<bool, Memory>
        requires apart { AreApart piece.now }
        requires new { AreNew piece.now self.old }
        requires light { weight_of self.old + weight_of piece.now < 2 ^ 31 }
        ensures put { IfOk result (λ put. IsTrue put → self.new ≡ put_before name piece.now self.old) }
        ensures not { IfOk result (λ put. put ≡ false → self.new ≡ self.old) }
        ensures err { OnErr result (self.new ≡ self.old) }
    {
        if !self.waiting.put_before(name, piece)? {
            return Ok(false);
        }
        self.expected = last_of(piece);
        Ok(true)
    }

    // Lets a piece wait that is put before an item, unless it is too long, and says so.
    fn begin(&mut self, name: u32, piece: &[Item]) -> Result<bool, Memory>
        requires there { IsItem name self.old }
        requires apart { AreApart piece.now }
        requires new { AreNew piece.now self.old }
        requires light { weight_of self.old + weight_of piece.now < 2 ^ 31 }
        ensures put { IfOk result (λ put. IsTrue put → self.new ≡ put_before name piece.now self.old) }
        ensures not { IfOk result (λ put. put ≡ false → self.new ≡ self.old) }
        ensures err { OnErr result (self.new ≡ self.old) }
    {
        self.waiting.flush(&mut self.list, self.at)?;
        self.at = None;
        if !self.waiting.begin(piece)? {
            return Ok(false);
        }
        self.at = Some(name);
        self.expected = last_of(piece);
        Ok(true)
    }

    // Puts a piece before an item of the list, with what waits put before it.
    fn put_now(&mut self, name: u32, piece: &[Item]) -> Result<(), Memory>
        requires there { IsItem name self.old }
        requires apart { AreApart piece.now }
        requires new { AreNew piece.now self.old }
        requires light { weight_of self.old + weight_of piece.now < 2 ^ 31 }
        ensures ok { OnOk result (self.new ≡ put_before name piece.now self.old) }
        ensures err { OnErr result (self.new ≡ self.old) }
    {
        self.waiting.flush(&mut self.list, self.at)?;
        self.at = None;
        self.expected = last_of(piece);
        let done = self.list.insert_before(name, piece);
        self.list.light();
        done
    }
}

// The name of the last item.
fn last_of(piece: &[Item]) -> Option<u32> {
    match piece.last() {
        Some(item) => Some(item.name()),
        None => None,
    }
}

// What follows at a place of what waits: an item that waits, or the one before which all is put.
fn from_waiting(waiting: &GapBuffer, at: Option<u32>, place: usize) -> Option<u32>
    requires { place ≤ length waiting.now }
    ensures { (back : List Item) → first_name back ≡ at → result ≡ first_name (drop place waiting.now ++ back) }
{
    match waiting.name_at(place) {
        Some(name) => Some(name),
        None => at,
    }
}

// What stands where the list has an item, or its end: what waits goes first there.
fn or_waiting(waiting: &GapBuffer, at: Option<u32>, next: Option<u32>) -> Option<u32>
    ensures here { (back : List Item) → first_name back ≡ at → next ≡ at → result ≡ first_name (waiting.now ++ back) }
    ensures elsewhere { next ≢ at → result ≡ next }
{
    if next == at {
        from_waiting(waiting, at, 0)
    } else {
        next
    }
}

// Whether an item stands before an end.
fn is_front<S: Sequence>(list: &S, end: Option<u32>, name: u32) -> bool
    requires end { ForSome end (λ x. IsItem x (S.items list.now)) }
    requires there { IsItem name (S.items list.now) }
    ensures { IsTrue result ↔ IsItem name (items_before_end end (S.items list.now)) }
{
    match end {
        Some(end) => list.is_before(name, end),
        None => true,
    }
}

// Whether an item stands before an end, and another does not, if there is another.
fn is_between<S: Sequence>(list: &S, end: Option<u32>, first: u32, second: Option<u32>) -> bool
    requires end { ForSome end (λ x. IsItem x (S.items list.now)) }
    requires first { IsItem first (S.items list.now) }
    requires second { ForSome second (λ x. IsItem x (S.items list.now)) }
    ensures { IsTrue result ↔ (IsItem first (items_before_end end (S.items list.now))
        × ForSome second (λ x. IsItem x (items_before_end end (S.items list.now)) → ⊥)) }
{
    if !is_front(list, end, first) {
        return false;
    }
    match second {
        Some(second) => !is_front(list, end, second),
        None => true,
    }
}

// The weight of the items before an end.
fn weight_of_front<S: Sequence>(list: &S, end: Option<u32>) -> u32
    requires { ForSome end (λ x. IsItem x (S.items list.now)) }
    ensures { result ≡ weight_of (items_before_end end (S.items list.now)) }
{
    match end {
        Some(end) => list.weight_before(end),
        None => list.weight(),
    }
}

// The weight of the items before one of the list.
fn weight_before_listed<S: Sequence>(
    list: &S,
    waiting: &GapBuffer,
    end: Option<u32>,
    name: u32,
) -> u32
    requires end { ForSome end (λ x. IsItem x (S.items list.now)) }
    requires there { IsItem name (S.items list.now) }
    requires listed { IsItem name waiting.now → ⊥ }
    requires light { weight_of (S.items list.now) + weight_of waiting.now < 2 ^ 31 }
    ensures { result ≡ weight_of (items_before name (put_at end waiting.now (S.items list.now))) }
{
    let before = list.weight_before(name);
    let more = waiting.weight();
    if more == 0 {
        return before;
    }
    if is_front(list, end, name) {
        before
    } else {
        before + more
    }
}

// Whether what waits at a place stands before an item.
fn waits_before<S: Sequence>(
    list: &S,
    waiting: &GapBuffer,
    end: Option<u32>,
    place: usize,
    second: u32,
) -> bool
    requires end { ForSome end (λ x. IsItem x (S.items list.now)) }
    requires place { place < length waiting.now }
    requires new { AreNew waiting.now (S.items list.now) }
    requires there { IsItem second (put_at end waiting.now (S.items list.now)) }
    ensures { result ≡ nat_lt (length (items_before_end end (S.items list.now)) + place)
        (place_of second (put_at end waiting.now (S.items list.now))) }
{
    match waiting.find(second) {
        Some(other) => place < other,
        None => !is_front(list, end, second),
    }
}

// Whether an item of the list stands before an item.
fn is_listed_before<S: Sequence>(
    list: &S,
    waiting: &GapBuffer,
    end: Option<u32>,
    first: u32,
    second: u32,
) -> bool
    requires end { ForSome end (λ x. IsItem x (S.items list.now)) }
    requires first { IsItem first (S.items list.now) }
    requires listed { IsItem first waiting.now → ⊥ }
    requires new { AreNew waiting.now (S.items list.now) }
    requires there { IsItem second (put_at end waiting.now (S.items list.now)) }
    ensures { result ≡ nat_lt (place_of first (put_at end waiting.now (S.items list.now)))
        (place_of second (put_at end waiting.now (S.items list.now))) }
{
    match waiting.find(second) {
        Some(_) => is_front(list, end, first),
        None => list.is_before(first, second),
    }
}

// The first marked item from an end on.
fn mark_behind<S: Sequence>(list: &S, end: Option<u32>) -> Option<u32>
    requires { ForSome end (λ x. IsItem x (S.items list.now)) }
    ensures { result ≡ first_marked (items_from_end end (S.items list.now)) }
{
    match end {
        Some(name) => {
            let marked = list.get(name).marked();
            if marked {
                Some(name)
            } else {
                list.next_marked(name)
            }
        }
        None => None,
    }
}

// The first marked item from a place of what waits on.
fn mark_from<S: Sequence>(
    list: &S,
    waiting: &GapBuffer,
    end: Option<u32>,
    place: usize,
) -> Option<u32>
    requires { ForSome end (λ x. IsItem x (S.items list.now)) }
    ensures { result ≡ first_marked (drop place waiting.now ++ items_from_end end (S.items list.now)) }
{
    match waiting.marked_from(place) {
        Some(mark) => Some(mark),
        None => mark_behind(list, end),
    }
}

// The first marked item after one of the list, which has this mark as the next one.
fn or_mark<S: Sequence>(
    list: &S,
    waiting: &GapBuffer,
    end: Option<u32>,
    name: u32,
    mark: Option<u32>,
) -> Option<u32>
    requires end { ForSome end (λ x. IsItem x (S.items list.now)) }
    requires there { IsItem name (S.items list.now) }
    requires listed { IsItem name waiting.now → ⊥ }
    requires apart { AreApart (S.items list.now) }
    requires mark { mark ≡ first_marked (items_after name (S.items list.now)) }
    ensures { result ≡ first_marked (items_after name (put_at end waiting.now (S.items list.now))) }
{
    match waiting.marked_from(0) {
        Some(first) => {
            if is_between(list, end, name, mark) {
                Some(first)
            } else {
                mark
            }
        }
        None => mark,
    }
}

// Those of some items that stand before an end, and the item behind them.
fn up_to(items: &[Item], behind: Option<u32>, end: Option<u32>) -> (&[Item], Option<u32>)
    ensures items { result.0.now ≡ items_before_end end items.now }
    ensures next { (back : List Item) → first_name back ≡ behind
        → result.1 ≡ first_name (items_from_end end items.now ++ back) }
{
    match end {
        Some(name) => {
            let place = place_of(items, name);
            if place < items.len() {
                (&items[..place], end)
            } else {
                (items, behind)
            }
        }
        None => (items, behind),
    }
}

// The end of a list from which an item is about to be taken out.
fn end_without<S: Sequence>(list: &S, end: Option<u32>, name: u32) -> Option<u32>
    requires { IsItem name (S.items list.now) }
    ensures here { end ≡ Some name → result ≡ first_name (items_after name (S.items list.now)) }
    ensures elsewhere { end ≢ Some name → result ≡ end }
{
    if end == Some(name) {
        list.next(name)
    } else {
        end
    }
}
