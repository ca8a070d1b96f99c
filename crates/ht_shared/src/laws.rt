//! What the rule says of every moment, since it holds between any two steps of any threads.
ghost use Rattle.std.specs.Prelude.{◌≡◌, ℕ, ◌∷◌, [], Option, Some};
ghost use mathlib.Core.Option.{some};
ghost use lib.ListN.{get_elem?};
ghost use Rattle.atomic_table.specs.Table.{State};
ghost use Rattle.ht_shared.specs.declared.view.View.{View};
ghost use Rattle.ht_shared.specs.Rule.{Holds};
ghost use Rattle.ht_shared.specs.Laws.{Lies, IsLast};

use ht_base::Stepper;

/// Whenever the machine lies in the slot, it is the state at the end of the one legal history of
/// all calls, and what holds between its steps holds of it.
pub fn free_lock<T: Stepper>()
    ensures { (start x : T) (s : State (Option T) (View T T.Event T.Reply))
        → Holds T.relates T.stands start s → s.homes ≡ some (Some x) ∷ []
        → Lies T.relates T.stands start x s }
{}

/// The ticket 2^63 - 1 is the last one: none is drawn behind it, and every other is an earlier
/// one.
pub fn last_ticket<T: Stepper>()
    ensures { (start : T) (s : State (Option T) (View T T.Event T.Reply)) (by : ℕ)
        (v : View T T.Event T.Reply) → Holds T.relates T.stands start s
        → get_elem? s.views by ≡ some v → v.ticket ≡ Some 9223372036854775807 → IsLast s by }
{}
