ghost use Rattle.std.specs.Prelude.{◌≤◌};

/// Where so many are parted, if more is to be put at a place. Who types puts at one place again and again, so the cut
/// is beside it: the part that is left alone has three quarters at most.
pub fn cut_beside(place: usize, length: usize) -> usize
    ensures { result ≤ length }
{
    let quarter = length / 4;
    place.max(quarter).min(length - quarter)
}
