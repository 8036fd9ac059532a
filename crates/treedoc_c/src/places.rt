// Places in the text, in the units that editors count.
ghost use Rattle.std.specs.Prelude.{◌≡◌, None, Some};
ghost use Rattle.td_replica.specs.Replica.{ReplicaValue};
ghost use Rattle.td_session.specs.Places.{IsIndexAt, IsOffsetOf, IsWidthOf};
ghost use Rattle.treedoc_c.specs.declared.status.Status.TheVariants.{Closed};
ghost use Rattle.treedoc_c.specs.Places.{IsNumbered, no_number, number_of, unit_of};

use crate::held::HeldSession;
use crate::status::Status;
use td_rope::Unit;
use td_session::Fault;

/// What a call answers that asks for a place or a width: the number of its status, and the one that is asked for. C
/// calls it `td_number`.
#[repr(C)]
#[derive(Clone, Copy, Debug, PartialEq, Eq)]
pub struct Number {
    pub status: u32,
    pub number: u64,
}

impl Number {
    // A status with nothing beside it.
    fn none(status: Status) -> Number
        ensures { result ≡ no_number status }
    {
        Number {
            status: status.number(),
            number: 0,
        }
    }

    // A number, where there is one.
    fn of(told: &Result<u64, Fault>) -> Number
        ensures { result ≡ number_of told.now }
    {
        match told {
            Ok(number) => Number {
                status: Status::Done.number(),
                number: *number,
            },
            Err(fault) => Number::none(Status::of(fault)),
        }
    }

    // An index, where there is one.
    fn of_index(told: &Result<u32, Fault>) -> Number
        ensures { result ≡ number_of told.now }
    {
        match told {
            Ok(index) => Number {
                status: Status::Done.number(),
                number: u64::from(*index),
            },
            Err(fault) => Number::none(Status::of(fault)),
        }
    }
}

// The unit with this number in `treedoc.h`.
fn unit_of(number: u32) -> Option<Unit>
    ensures { result ≡ unit_of number }
{
    match number {
        0 => Some(Unit::Byte),
        1 => Some(Unit::Utf16),
        2 => Some(Unit::CodePoint),
        _ => None,
    }
}

/// How wide the text is, in a unit.
#[unsafe(no_mangle)]
pub extern "C" fn td_len_in(session: &mut HeldSession, unit: u32) -> Number
    ensures same { session.new.handle.value ≡ session.old.handle.value }
    ensures closed { session.old.handle.value ≡ None → result ≡ no_number Closed }
    ensures open { (r : ReplicaValue) → session.old.handle.value ≡ Some r
        → IsNumbered unit (λ known told. IsWidthOf known r.machine.doc told) result }
{
    if !session.is_open {
        return Number::none(Status::Closed);
    }
    match unit_of(unit) {
        Some(unit) => Number::of(&session.handle.lend().len_in(unit)),
        None => Number::none(Status::BadUnit),
    }
}

/// How wide the text is that stands before the atom at an index.
#[unsafe(no_mangle)]
pub extern "C" fn td_offset(session: &mut HeldSession, unit: u32, index: u32) -> Number
    ensures same { session.new.handle.value ≡ session.old.handle.value }
    ensures closed { session.old.handle.value ≡ None → result ≡ no_number Closed }
    ensures open { (r : ReplicaValue) → session.old.handle.value ≡ Some r
        → IsNumbered unit (λ known told. IsOffsetOf known index r.machine.doc told) result }
{
    if !session.is_open {
        return Number::none(Status::Closed);
    }
    match unit_of(unit) {
        Some(unit) => Number::of(&session.handle.lend().offset(unit, index)),
        None => Number::none(Status::BadUnit),
    }
}

/// The index of the atom in which an offset lies.
#[unsafe(no_mangle)]
pub extern "C" fn td_index(session: &mut HeldSession, unit: u32, offset: u64) -> Number
    ensures same { session.new.handle.value ≡ session.old.handle.value }
    ensures closed { session.old.handle.value ≡ None → result ≡ no_number Closed }
    ensures open { (r : ReplicaValue) → session.old.handle.value ≡ Some r
        → IsNumbered unit (λ known told. IsIndexAt known offset r.machine.doc told) result }
{
    if !session.is_open {
        return Number::none(Status::Closed);
    }
    match unit_of(unit) {
        Some(unit) => Number::of_index(&session.handle.lend().index(unit, offset)),
        None => Number::none(Status::BadUnit),
    }
}
