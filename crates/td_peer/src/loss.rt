// Which messages are for a site, and how often each of them is sent.
ghost use Rattle.std.specs.Prelude.{◌≡◌};
ghost use Rattle.td_law_meeting.specs.Thin.{is_addressed, copies, divides};

use std::marker::Model;
use td_base::Site;
use td_op::Message;

/// Which messages for a peer are lost, and which are sent twice, by their number from 1 among those for it: those that
/// `drop_each` divides, and of the others those that `double_each` divides. The number 0 divides none.
#[derive(Clone, Copy)]
pub struct Loss {
    pub drop_each: u32,
    pub double_each: u32,
}

impl Model for Loss {
    ghost use Rattle.td_law_meeting.specs.Thin.{Loss};

    ghost Value = { Loss };

    ghost view = { λ l. record { drop_each = l.drop_each; double_each = l.double_each } };

    ghost inverse = { λ l. record { drop_each = l.drop_each; double_each = l.double_each } };
}

impl Loss {
    // How often the j-th message is sent.
    pub(crate) fn copies(self, j: u64) -> u8
        ensures { result ≡ copies self j }
    {
        if divides(self.drop_each, j) {
            0
        } else if divides(self.double_each, j) {
            2
        } else {
            1
        }
    }
}

// Whether j is one of each so many.
fn divides(each: u32, j: u64) -> bool
    ensures { result ≡ divides each j }
{
    each > 0 && j % u64::from(each) == 0
}

// Whether the message is for the site.
pub(crate) fn is_addressed(site: Site, message: &Message) -> bool
    ensures { result ≡ is_addressed site message.now }
{
    match message {
        Message::Op(_) => true,
        Message::Vote(vote) => vote.proposal.site == site,
    }
}
