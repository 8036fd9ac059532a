// Sites, dots and identities.
ghost use Rattle.std.specs.Prelude.{◌≡◌, ◌≤◌, IfSome, MatchOption, None, Some};
ghost use Rattle.td_reader.specs.Arguments.{dot_at, identity_at, offset_at, site_at};

use crate::cursor::behind;
use crate::number::ranged;
use td_base::{AtomId, Dot, MAX_OFFSET, MAX_SEQ, MAX_SITE, Site};

/// A site, and what is left behind it.
#[tactic(auto, unfolding(crate::specs::Arguments::site_at))]
pub(crate) fn site(bytes: &[u8]) -> Option<(Site, &[u8])>
    ensures { let read = site_at bytes.now in
        MatchOption result (read ≡ None) (λ found. read ≡ Some (found.0, found.1.now)) }
{
    let (number, rest) = ranged(bytes, 1, u64::from(MAX_SITE))?;
    let site = Site::new(number as u8).unwrap();
    Some((site, rest))
}

/// A dot, and what is left behind it.
#[tactic(auto, unfolding(crate::specs::Arguments::dot_at))]
pub(crate) fn dot(bytes: &[u8]) -> Option<(Dot, &[u8])>
    ensures { let read = dot_at bytes.now in
        MatchOption result (read ≡ None) (λ found. read ≡ Some (found.0, found.1.now)) }
{
    let Some((site, rest)) = site(bytes) else {
        return None;
    };
    let rest = behind(rest, b".")?;
    let (seq, rest) = ranged(rest, 1, u64::from(MAX_SEQ))?;
    let dot = Dot::new(site, seq as u32).unwrap();
    Some((dot, rest))
}

/// The identity of an atom, and what is left behind it.
#[tactic(auto, unfolding(crate::specs::Arguments::identity_at))]
pub(crate) fn identity(bytes: &[u8]) -> Option<(AtomId, &[u8])>
    ensures { let read = identity_at bytes.now in
        MatchOption result (read ≡ None) (λ found. read ≡ Some (found.0, found.1.now)) }
{
    let Some((dot, rest)) = dot(bytes) else {
        return None;
    };
    let (offset, rest) = offset(rest)?;
    let id = AtomId::new(dot, offset).unwrap();
    Some((id, rest))
}

// The offset behind `+`, or 0 where there is none.
#[tactic(auto, unfolding(crate::specs::Arguments::offset_at))]
fn offset(bytes: &[u8]) -> Option<(u8, &[u8])>
    ensures read { let read = offset_at bytes.now in
        MatchOption result (read ≡ None) (λ found. read ≡ Some (found.0, found.1.now)) }
    ensures range { IfSome result (λ found. found.0 ≤ MAX_OFFSET) }
{
    match behind(bytes, b"+") {
        None => Some((0, bytes)),
        Some(rest) => {
            let (offset, rest) = ranged(rest, 1, u64::from(MAX_OFFSET))?;
            Some((offset as u8, rest))
        }
    }
}
