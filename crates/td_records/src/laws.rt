ghost use Rattle.std.specs.Prelude.{◌≡◌, ℕ, List};
ghost use Rattle.td_records.specs.Records.{AreShort, StandFor};

/// No bytes stand for two lists of records.
pub fn records_are_unique()
    ensures { (bytes : List ℕ) (a b : List (List ℕ)) → AreShort a → AreShort b
        → StandFor a bytes → StandFor b bytes → a ≡ b }
{}
