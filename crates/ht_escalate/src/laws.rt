//! Laws of deadlines that are taken, for proofs alone: the functions do nothing.
ghost use Rattle.std.specs.Prelude.{◌≡◌, ◌≤◌, ℕ, Some};
ghost use Rattle.ht_base.specs.declared.moment.Moment.{Moment};
ghost use Rattle.ht_due.specs.declared.due.Due.{Due};
ghost use Rattle.ht_escalate.specs.Escalating.{IsOpen, TakesDeadline};
ghost use Rattle.ht_escalate.specs.Leaving.{LeavesRest};
ghost use Rattle.ht_tree.specs.RowDues.{first_due};
ghost use Rattle.ht_tree.specs.Soundness.{IsSound};
ghost use Rattle.ht_tree.specs.Tables.{TablesOf, at_moment};

/// A deadline is taken in one way.
pub fn a_deadline_is_taken_in_one_way()
    ensures { (at : Moment) (task place : ℕ) (u v w : TablesOf)
        → TakesDeadline at task place u v
        → TakesDeadline at task place u w
        → v ≡ w }
{}

/// What is no matter of the deadline stays: the other tasks, and of its own all but who has it and what
/// was taken.
pub fn a_deadline_leaves_the_rest()
    ensures { (at : Moment) (task place : ℕ) (u v : TablesOf)
        → IsSound u
        → TakesDeadline at task place u v
        → LeavesRest task place u v }
{}

/// The last moment of the tables is no matter of it.
pub fn a_deadline_looks_at_no_last_moment()
    ensures { (at : Moment) (task place last : ℕ) (u v : TablesOf)
        → TakesDeadline at task place u v
        → TakesDeadline at task place (at_moment u last) (at_moment v last) }
{}

/// What is due first of the kinds 2 and 3 is a deadline that may be taken.
pub fn a_due_deadline_may_be_taken()
    ensures { (u : TablesOf) (by : ℕ) (due : Due)
        → IsSound u
        → first_due u by ≡ Some due
        → 2 ≤ due.kind
        → IsOpen u due.task.0 due.place }
{}
