ghost use Rattle.std.specs.Prelude.{◌≡◌, ◌<◌, ◌^◌, ◌∷◌, [], true, false, IfOk};

use std::alloc::Global;
use std::process::Abort;
use td_base::Memory;
use td_list::{
    Buffered, Chunked, Deferred, Item, Line, Sequence, Share, put_at, reserve_by_quarter,
};

#[test]
fn a_list_in_a_line_answers(rt: HostRuntime) -> Result<(), Memory> {
    answers::<Line>(&rt, rt.alloc())?;
    answers::<Deferred<Line>>(&rt, rt.alloc())
}

#[test]
fn a_list_in_chunks_answers(rt: HostRuntime) -> Result<(), Memory> {
    in_chunks_answers::<Line>(&rt, rt.alloc())
}

// The chunks of `List` stand in a list of this kind.
#[test]
fn a_list_in_chunks_in_chunks_answers(rt: HostRuntime) -> Result<(), Memory> {
    in_chunks_answers::<Deferred<Chunked<Chunked<Line>>>>(&rt, rt.alloc())
}

#[test]
fn a_list_that_gathers_what_is_typed_answers(rt: HostRuntime) -> Result<(), Memory> {
    answers::<Buffered<Line>>(&rt, rt.alloc())?;
    let alloc = rt.alloc();
    let weights = [
        typed_on(alloc)?,
        waiting_replaced(alloc)?,
        waiting_item_replaced(alloc)?,
        end_removed(alloc)?,
        waiting_renewed(alloc)?,
    ];
    assert_eq!(rt; weights, [9, 4, 10, 6, 8]);
    Ok(())
}

#[test]
fn a_piece_is_put_before_an_item_or_at_the_end(rt: HostRuntime) -> Result<(), Memory> {
    let list = two_put(rt.alloc())?;
    assert_eq!(rt;
        (list.first(), list.last(), list.weight()),
        (Some(3), Some(5), 3)
    );
    Ok(())
}

fn two_put(alloc: Global) -> Result<Line, Memory> {
    let mut list = Line::empty(alloc)?;
    put_at(&mut list, None, &[Item::new(5, 2, false)])?;
    put_at(&mut list, Some(5), &[Item::new(3, 1, false)])?;
    Ok(list)
}

#[test]
fn a_long_list_gets_room_for_a_quarter_more(rt: HostRuntime) -> Result<(), Memory> {
    let mut items: Vec<u32> = Vec::new(rt.alloc());
    reserve_by_quarter(&mut items, 8)?;
    let first = items.capacity();
    items.extend_from_slice(&[7; 8])?;
    reserve_by_quarter(&mut items, 1)?;
    assert_eq!(rt; (first, items.capacity()), (8, 10));
    Ok(())
}

fn answers<S: Sequence>(rt: &impl Abort, alloc: Global) -> Result<(), Memory> {
    let told = tell::<S>(alloc)?;
    assert_eq!(rt; told, expected());
    Ok(())
}

fn in_chunks_answers<S: Sequence>(rt: &impl Abort, alloc: Global) -> Result<(), Memory> {
    answers::<Chunked<S>>(rt, alloc)?;
    let weights = [
        stretch_replaced::<S>(alloc)?,
        item_replaced::<S>(alloc)?,
        edited::<S>(alloc)?,
    ];
    assert_eq!(rt; weights, [4, 12, 12]);
    Ok(())
}

// What a list of the items 5, 3, 8, 9 with the weights 2, 0, 4, 1 answers, of which 8 and 9 are marked.
#[derive(Clone, Copy, Debug, PartialEq, Eq)]
struct Told {
    first: Option<u32>,
    last: Option<u32>,
    after_five: Option<u32>,
    after_nine: Option<u32>,
    mark_after_five: Option<u32>,
    three_before_eight: bool,
    weight: u32,
    before_nine: u32,
    third: Item,
    third_unit: Option<Share>,
    beyond: Option<Share>,
}

fn expected() -> Told {
    Told {
        first: Some(5),
        last: Some(9),
        after_five: Some(3),
        after_nine: None,
        mark_after_five: Some(8),
        three_before_eight: true,
        weight: 7,
        before_nine: 6,
        third: Item::new(8, 4, true),
        third_unit: Some(Share { name: 8, rest: 1 }),
        beyond: None,
    }
}

fn tell<S: Sequence>(alloc: Global) -> Result<Told, Memory> {
    let mut list = S::empty(alloc)?;
    list.push(&[Item::new(5, 2, false), Item::new(9, 1, true)])?;
    list.insert_before(9, &[Item::new(3, 0, false), Item::new(8, 4, true)])?;
    Ok(Told {
        first: list.first(),
        last: list.last(),
        after_five: list.next(5),
        after_nine: list.next(9),
        mark_after_five: list.next_marked(5),
        three_before_eight: list.is_before(3, 8),
        weight: list.weight(),
        before_nine: list.weight_before(9),
        third: list.get(8),
        third_unit: list.share_at(3),
        beyond: list.share_at(7),
    })
}

// The list of 5, 8, 9 with the weights 2, 4, 1.
fn three<S: Sequence>(alloc: Global) -> Result<Chunked<S>, Memory>
    ensures { IfOk result (λ list. list ≡ record { name = 5; weight = 2; marked = false }
        ∷ record { name = 8; weight = 4; marked = true }
        ∷ record { name = 9; weight = 1; marked = true } ∷ []) }
{
    let mut list = Chunked::empty(alloc)?;
    list.push(&[
        Item::new(5, 2, false),
        Item::new(8, 4, true),
        Item::new(9, 1, true),
    ])?;
    Ok(list)
}

// Its weight after 5 and 8 are replaced by an 8.
fn stretch_replaced<S: Sequence>(alloc: Global) -> Result<u32, Memory> {
    let mut list = three::<S>(alloc)?;
    list.replace(5, Some(9), &[Item::new(8, 3, true)])?;
    Ok(list.weight())
}

// Its weight after 8 is replaced by 3, 8 and 4, and 4 by a 6.
fn item_replaced<S: Sequence>(alloc: Global) -> Result<u32, Memory> {
    let mut list = three::<S>(alloc)?;
    let piece = [
        Item::new(3, 1, true),
        Item::new(8, 1, true),
        Item::new(4, 2, true),
    ];
    list.replace_one(8, &piece)?;
    list.replace_one(4, &[Item::new(6, 7, true)])?;
    Ok(list.weight())
}

// Its weight after 8 went and 9 got the weight 10.
fn edited<S: Sequence>(alloc: Global) -> Result<u32, Memory> {
    let mut list = three::<S>(alloc)?;
    list.remove(8);
    list.renew(Item::new(9, 10, true));
    Ok(list.weight())
}

// The list of 5, 3, 8 and 9 with the weights 2, 0, 4 and 1, of which 3 and 8 wait.
fn waiting(alloc: Global) -> Result<Buffered<Line>, Memory>
    ensures { IfOk result (λ list. list ≡ record { name = 5; weight = 2; marked = false }
        ∷ record { name = 3; weight = 0; marked = false }
        ∷ record { name = 8; weight = 4; marked = true }
        ∷ record { name = 9; weight = 1; marked = true } ∷ []) }
{
    let mut list = Buffered::empty(alloc)?;
    list.push(&[Item::new(5, 2, false), Item::new(9, 1, true)])?;
    list.insert_before(9, &[Item::new(3, 0, false), Item::new(8, 4, true)])?;
    Ok(list)
}

// Its weight after two more pieces were put before the last of what was put.
fn typed_on(alloc: Global) -> Result<u32, Memory> {
    let mut list = waiting(alloc)?;
    list.insert_before(8, &[Item::new(4, 1, true), Item::new(6, 0, false)])?;
    list.insert_before(6, &[Item::new(7, 1, true)])?;
    Ok(list.weight())
}

// Its weight after 3 and 8 are replaced by a 4.
fn waiting_replaced(alloc: Global) -> Result<u32, Memory> {
    let mut list = waiting(alloc)?;
    list.replace(3, Some(9), &[Item::new(4, 1, true)])?;
    Ok(list.weight())
}

// Its weight after 8 is replaced by a 6.
fn waiting_item_replaced(alloc: Global) -> Result<u32, Memory> {
    let mut list = waiting(alloc)?;
    list.replace_one(8, &[Item::new(6, 7, true)])?;
    Ok(list.weight())
}

// Its weight after 9, before which it waits, and 3 went.
fn end_removed(alloc: Global) -> Result<u32, Memory> {
    let mut list = waiting(alloc)?;
    list.remove(9);
    list.remove(3);
    Ok(list.weight())
}

// Its weight after 8 got the weight 5.
fn waiting_renewed(alloc: Global) -> Result<u32, Memory> {
    let mut list = waiting(alloc)?;
    list.renew(Item::new(8, 5, true));
    Ok(list.weight())
}

#[test]
fn items_are_put_at_three_places_by_turns(rt: HostRuntime) -> Result<(), Memory> {
    assert_eq!(rt;
        by_turns::<Chunked<Line>>(rt.alloc(), 600, 1)?.weight(),
        600
    );
    Ok(())
}

// Each run is longer than what waits at most.
#[test]
fn items_are_put_before_one_another_in_runs(rt: HostRuntime) -> Result<(), Memory> {
    assert_eq!(rt;
        by_turns::<Buffered<Line>>(rt.alloc(), 600, 100)?.weight(),
        600
    );
    Ok(())
}

// The list of 0, 1 and 2 in which each number from 3 up to an end was put directly before the one before it, but at
// the end of each run before its rest by three.
fn by_turns<S: Sequence>(alloc: Global, end: u32, run: u32) -> Result<S, Memory>
    requires end { end < 2 ^ 31 }
    requires run { 0 < run }
{
    let mut list = S::empty(alloc)?;
    list.push(&[
        Item::new(0, 1, false),
        Item::new(1, 1, false),
        Item::new(2, 1, false),
    ])?;
    for name in 3..end {
        list.insert_before(goes_before(name, run), &[Item::new(name, 1, false)])?;
    }
    Ok(list)
}

// Before which number another is put.
fn goes_before(name: u32, run: u32) -> u32
    requires name { 2 < name }
    requires run { 0 < run }
    ensures { result < name }
{
    if name % run == 0 { name % 3 } else { name - 1 }
}
