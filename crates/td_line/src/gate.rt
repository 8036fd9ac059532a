use td_base::Site;

/// Where a worker can be held up, so that a test can bring turns of two threads together. What a gate does is of no
/// consequence for any contract.
pub trait Gate {
    /// A request of this editor's call was taken.
    fn before(&self, site: Site, editor: u32, call: u32);

    /// Its answer was sent.
    fn after(&self, site: Site, editor: u32, call: u32);

    /// A turn of the site's worker ends.
    fn turned(&self, site: Site);
}

/// The gate that holds nobody up.
#[derive(Clone, Copy)]
pub struct Always;

impl Gate for Always {
    fn before(&self, _site: Site, _editor: u32, _call: u32) {}

    fn after(&self, _site: Site, _editor: u32, _call: u32) {}

    fn turned(&self, _site: Site) {}
}
