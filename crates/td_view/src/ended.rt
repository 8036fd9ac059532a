use crate::table::Press;
use std::sync::Wait;

/// What is left of a writer that has ended, so that readers can still look. It cannot be dropped: end it by `quit`.
pub struct Ended {
    press: Press,
}

impl Ended {
    pub(crate) fn new(press: Press) -> Ended {
        Ended { press }
    }

    /// Gives back what the readers look at. It may wait for them, and takes no memory.
    pub fn quit<R: Wait>(self, rt: &R) {
        let Ended { press } = self;
        press.take(rt);
    }
}
