ghost use Rattle.std.specs.Prelude.{◌≡◌, ◌↔◌, IsTrue, length, nat_eq};
ghost use Rattle.std.specs.Cmp.Lexicographic.{pointwise};
ghost use Rattle.std.specs.List.{list_all};
ghost use Rattle.td_reader.specs.Values.{TraceValue};
ghost use Rattle.td_law_replay.specs.Judging.{States};
ghost use Rattle.td_check.specs.AtRest.{is_at_rest};
ghost use Rattle.td_check.specs.Findings.{AreSettledStates};
ghost use Rattle.td_check.specs.Seated.{AreSeated};

use td_clock::Vector;
use td_doc::Doc;
use td_seat::Seat;

/// Whether the sites with these seats have the same operations, and no proposal is undecided. The seats are those at
/// the end of the replay, that of site s at place s - 1. Takes no memory.
pub(crate) fn is_settled<D: Doc>(seats: &[Seat<D>]) -> bool
    ensures { (t : TraceValue) (last : States) → AreSeated t.sites last seats.now → length t.histories ≡ t.sites
        → IsTrue result ↔ AreSettledStates t last }
{
    let Some(first) = seats.first() else {
        return true;
    };
    are_at_rest(seats, first.have())
}

// Whether each of these sites has, with no proposal undecided, exactly these operations.
fn are_at_rest<D: Doc>(seats: &[Seat<D>], have: &Vector) -> bool
    ensures { result ≡ list_all (is_at_rest have.now) seats.now }
{
    seats.iter().all(|seat| is_at_rest(seat, have))
}

// Whether the site has exactly these operations, and no proposal of its is undecided.
fn is_at_rest<D: Doc>(seat: &Seat<D>, have: &Vector) -> bool
    ensures { result ≡ is_at_rest have.now seat.now }
{
    is_same(seat.have(), have) && seat.undecided() == 0
}

fn is_same(one: &Vector, other: &Vector) -> bool
    ensures { result ≡ pointwise nat_eq one.now other.now }
{
    one == other
}
