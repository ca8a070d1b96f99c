//! Laws of the definitions, for proofs alone: the functions do nothing.
ghost use Rattle.std.specs.Prelude.{◌≡◌, ◌↔◌, ℕ, List, true, Some};
ghost use Rattle.ht_base.specs.declared.moment.Moment.{Moment};
ghost use Rattle.ht_compose.specs.Agenda.{Ends, FirstEnds, IsDetermined, OneBehindTheOther, OneEnd};
ghost use Rattle.ht_compose.specs.Aging.{Ages, AllAge};
ghost use Rattle.ht_compose.specs.Downward.{freed};
ghost use Rattle.ht_compose.specs.Families.{Above, is_above};
ghost use Rattle.ht_compose.specs.Freeing.{Frees};
ghost use Rattle.ht_compose.specs.Items.{Does, Item};
ghost use Rattle.ht_compose.specs.Work.{AlwaysEnds, AreNumbered};
ghost use Rattle.ht_due.specs.declared.due.Due.{Due};
ghost use Rattle.ht_due.specs.Dues.{has};
ghost use Rattle.ht_models.specs.Model.{ModelOf};
ghost use Rattle.ht_tree.specs.declared.row.Row.{Row};
ghost use Rattle.ht_tree.specs.RowDues.{row_dues};
ghost use Rattle.ht_tree.specs.Soundness.{IsSound};
ghost use Rattle.ht_tree.specs.Tables.{TablesOf, at_moment, task_row, with_rows};

/// What is to be done has one end, and the end of an item and a rest is the end of the rest from the end
/// of that item alone.
pub fn laws_of_the_agenda()
    ensures determined { (at : Moment) → IsDetermined (Does at) }
    ensures one { (at : Moment) → OneEnd (Does at) }
    ensures behind { (at : Moment) → OneBehindTheOther (Does at) }
    ensures first { (at : Moment) → FirstEnds (Does at) }
{}

/// What is to be done always comes to an end, where the rows stand at their numbers, each model's tree is
/// counted, and tasks are closed only in states in which they have ended.
pub fn the_end_is_always_reached()
    ensures { (at : Moment) → AlwaysEnds at }
{}

/// A task is above another exactly where a chain of one or more parents leads to it, in sound tables.
pub fn above_is_a_chain_of_parents()
    ensures { (u : TablesOf) (above task : ℕ) (row : Row)
        → IsSound u
        → task_row u task ≡ Some row
        → (is_above u.rows above row ≡ true) ↔ Above u.rows above task }
{}

/// Each task ages by what is done on composite tasks, and where tasks are freed below one that is resumed.
pub fn tasks_only_age()
    ensures agenda { (at : Moment) (u v : TablesOf) (items : List Item)
        → AreNumbered u.rows
        → Ends (Does at) u items v
        → AllAge at u v }
    ensures freeing { (at : Moment) (task : ℕ) (u v : TablesOf)
        → AreNumbered u.rows
        → Frees at task u v
        → AllAge at u v }
    ensures row { (row : Row) → Ages row (freed row) }
    ensures unchanged { (at : Moment) (u : TablesOf) → AllAge at u u }
    ensures onward { (at : Moment) (u v w : TablesOf)
        → AllAge at u v
        → AllAge at v w
        → AllAge at u w }
{}

/// Of a task that ages nothing is due but what was.
pub fn what_is_due_only_goes()
    ensures { (models : List ModelOf) (old new : Row) (due : Due)
        → Ages old new
        → has due (row_dues models new) ≡ true
        → has due (row_dues models old) ≡ true }
{}

/// What is done on composite tasks changes rows alone.
pub fn only_rows_change()
    ensures agenda { (at : Moment) (u v : TablesOf) (items : List Item)
        → Ends (Does at) u items v
        → v ≡ with_rows u v.rows }
    ensures freeing { (at : Moment) (task : ℕ) (u v : TablesOf)
        → Frees at task u v
        → v ≡ with_rows u v.rows }
{}

/// What is done on composite tasks is the same whatever the moment of the last record was.
pub fn the_last_moment_is_not_looked_at()
    ensures agenda { (at : Moment) (u v : TablesOf) (items : List Item)
        → Ends (Does at) u items v
        → (last : ℕ)
        → Ends (Does at) (at_moment u last) items (at_moment v last) }
    ensures freeing { (at : Moment) (task : ℕ) (u v : TablesOf)
        → Frees at task u v
        → (last : ℕ)
        → Frees at task (at_moment u last) (at_moment v last) }
{}
