use td_link::Item;
use td_op::Request;

/// A request on its way to a worker, with the number of its call, from 1.
#[derive(Clone, Copy)]
pub struct Ask {
    pub call: u32,
    pub request: Request,
}

impl Item for Ask {
    type Mark = ();

    ghost fits = { λ mark ask. Unit {0} };
}
