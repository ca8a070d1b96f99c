//! Laws of the definitions, for proofs alone: the functions do nothing.
ghost use Rattle.std.specs.Prelude.{◌+◌, ◌-◌, ◌^◌, ◌<◌, ◌≤◌, ◌⊎◌, ℕ};
ghost use Rattle.ht_outside.specs.Causes.{Rose, together};

/// Where the count of faults of one of two disks rose, that of both together did. Where that of
/// both rose from below the end of the count, that of one of the two did.
pub fn faults_of_two_disks()
    ensures both { (a b c d : ℕ) → a ≤ c → b ≤ d → Rose a c ⊎ Rose b d
        → Rose (together a b) (together c d) }
    ensures one { (a b c d : ℕ) → a ≤ c → b ≤ d → a + b < 2 ^ 64 - 1
        → Rose (together a b) (together c d) → Rose a c ⊎ Rose b d }
{}
