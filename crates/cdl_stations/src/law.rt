// What holds of keys.
ghost use Rattle.std.specs.Prelude.{◌<◌, ℕ, [], ◌∷◌, ◌++◌};
ghost use Rattle.cdl_stations.specs.Keys.{Key, Before, Compared};

/// A law: keys are in one order from the left, in which a key comes before those that go on from it.
pub fn keys_are_ordered()
    ensures one_of_three { (j k : Key) → Compared j k }
    ensures never_both { (j k : Key) → Before j k → Before k j → ⊥ }
    ensures behind { (j k l : Key) → Before j k → Before k l → Before j l }
    ensures inside { (j l : Key) (n : ℕ) → Before j (j ++ n ∷ l) }
    ensures by_number { (j k l : Key) (m n : ℕ) → m < n → Before (j ++ m ∷ k) (j ++ n ∷ l) }
{}
