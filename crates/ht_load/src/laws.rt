//! Laws of the definitions, for proofs alone: the functions do nothing.
ghost use Rattle.std.specs.Prelude.{◌≡◌, None, ℕ};
ghost use Rattle.ht_desk.specs.States.{State};
ghost use Rattle.ht_load.specs.Answers.{AreDecided};
ghost use Rattle.ht_load.specs.Loads.{Loads};
ghost use Rattle.ht_load.specs.declared.sums.Sums.{Sums};

/// A seed and a number of requests have one load, over offices with the same tables in which nothing is in
/// doubt: its sums are the same each time, where neither memory nor a disk nor the length of a journal
/// refused a request.
pub fn a_load_has_one_line()
    ensures { (seed count : ℕ) (s t u v : State) (a b : Sums) (l : Loads seed count s t a)
        (m : Loads seed count u v b) → s.tables ≡ u.tables → s.doubt ≡ None → u.doubt ≡ None
        → AreDecided (l.load).history → AreDecided (m.load).history → a ≡ b }
{}
