use td_base::Site;

/// A message, by the site that sent it and its number among those that this site sent, from 1. No site sends as many as
/// `u32::MAX`: each of its operations is one, and it votes once on each proposal of another.
#[derive(Clone, Copy, Debug, PartialEq, Eq)]
pub struct Post {
    pub site: Site,
    pub number: u32,
}
