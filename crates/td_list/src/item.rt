ghost use Rattle.std.specs.Prelude.{◌≡◌, ◌<◌, ◌^◌};

use std::marker::Model;

/// An item of a list, in 8 bytes: a name, a small number that no other item of the list has (a list takes four bytes
/// for each number up to its greatest), a weight, and whether it is one of those that `next_marked` stops at.
#[derive(Clone, Copy, Debug, PartialEq, Eq)]
pub struct Item {
    name: u32,
    // twice the weight, and one more where it is marked
    load: u32,
}

impl Model for Item {
    ghost use Rattle.std.specs.Prelude.{◌≡◌, ◌/◌, ◌%◌, nat_eq};
    ghost use Rattle.td_list.specs.Items.{Item as ItemValue};

    ghost Value = { ItemValue };

    ghost use Rattle.td_list.specs.Items.{load_of};
    ghost use Rattle.std.proofs.Common.{sym};

    ghost view = { λ i. record { name = i.name; weight = i.load / 2; marked = nat_eq (i.load % 2) 1 } };

    ghost invariant = { λ i. i.load ≡ load_of (i.load / 2) (nat_eq (i.load % 2) 1) };

    ghost inverse = { λ i. record { name = i.name; load = load_of i.weight i.marked } };

    ghost inverse_ok = { λ v h i. record { name = v.name; load = sym h i } };
}

impl Item {
    /// An item of this name and weight, marked or not. All items of a list weigh less than 2^31 together.
    pub fn new(name: u32, weight: u32, marked: bool) -> Item
        requires { weight < 2 ^ 31 }
        ensures { result ≡ record { name = name; weight = weight; marked = marked } }
    {
        if marked {
            Item {
                name,
                load: 2 * weight + 1,
            }
        } else {
            Item {
                name,
                load: 2 * weight,
            }
        }
    }

    /// The name, by which a list finds the item.
    pub fn name(&self) -> u32
        ensures { result ≡ self.now.name }
    {
        self.name
    }

    /// How many units of weight it has: those that `weight_before` and `share_at` count.
    pub fn weight(&self) -> u32
        ensures { result ≡ self.now.weight }
    {
        self.load / 2
    }

    /// Whether `next_marked` stops at it.
    pub fn marked(&self) -> bool
        ensures { result ≡ self.now.marked }
    {
        self.load % 2 == 1
    }
}

/// A unit of the weight of a list: the item that has it, and how many units of this item come before it.
#[derive(Clone, Copy, Debug, PartialEq, Eq)]
pub struct Share {
    pub name: u32,
    pub rest: u32,
}
