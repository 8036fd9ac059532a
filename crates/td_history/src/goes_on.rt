ghost use Rattle.std.specs.Prelude.{◌≡◌, ℕ, true, refl};
ghost use Rattle.std.proofs.Common.{rules};
ghost use Rattle.td_history.specs.GoesOn.{number_on};

/// A value that tells what stands so far behind it in a list, where the list goes on as it mostly does.
pub trait GoesOn: Copy + PartialEq {
    /// What stands so far behind it.
    ghost on: { ℕ → Self → Self };

    /// What stands so far behind it.
    fn on(self, k: u32) -> Self
        ensures { result ≡ on k self };

    /// Nothing behind it is the value itself.
    ghost first: { (x : Self) → on 0 x ≡ x };

    /// What is equal is the same.
    ghost same: { (x y : Self) → Self.eq x y ≡ true → x ≡ y };
}

/// Numbers rise by one.
impl GoesOn for u32 {
    ghost on = { number_on };

    fn on(self, k: u32) -> u32 {
        self.wrapping_add(k)
    }

    ghost first = { λ x. refl };

    ghost same = { Prim.search rules };
}
