//! Laws of the definitions, for proofs alone: the functions do nothing.
ghost use Rattle.std.specs.Prelude.{◌≡◌, ◌≢◌, ◌&&◌, ◌||◌, false, List, not, slice_get, true};
ghost use Rattle.std.specs.Cmp.{IsTotalOrder};
ghost use Rattle.std.specs.Ordering.{is_eq};
ghost use Rattle.std.specs.declared.cmp.Ordering.TheVariants.{Equal, Less};
ghost use Rattle.ht_due.specs.declared.due.Due.{Due};
ghost use Rattle.ht_due.specs.Dues.{Ascends, compare_dues, has, merged, next_after, put_due, without};

/// Any two dues are in order, and no two that differ tie.
pub fn dues_are_in_one_order()
    ensures total { IsTotalOrder compare_dues }
    ensures exact { (a b : Due) → compare_dues a b ≡ Equal → a ≡ b }
{}

/// Two ascending lists that have the same dues are one.
pub fn dues_determine_their_list()
    ensures { (a b : List Due) → Ascends a → Ascends b → ((due : Due) → has due a ≡ has due b)
        → a ≡ b }
{}

/// A due is put in at its place: the list ascends still, and has this one and those that it had.
pub fn a_due_is_put_in()
    ensures ascend { (dues : List Due) (due : Due) → Ascends dues → Ascends (put_due dues due) }
    ensures has { (due : Due) (dues : List Due) (put : Due)
        → has due (put_due dues put) ≡ (is_eq (compare_dues due put) || has due dues) }
{}

/// A due is taken out: the list ascends still, and has the others that it had.
pub fn a_due_is_taken_out()
    ensures ascend { (dues : List Due) (due : Due) → Ascends dues → Ascends (without dues due) }
    ensures has { (due : Due) (dues : List Due) (gone : Due) → Ascends dues
        → has due (without dues gone) ≡ (not (is_eq (compare_dues due gone)) && has due dues) }
{}

/// Many are taken out and put in: the list ascends still, and has the new ones, and of those that it
/// had the ones that aren't gone.
pub fn many_dues_change()
    ensures ascend { (dues gone news : List Due) → Ascends dues → Ascends (merged dues gone news) }
    ensures has { (due : Due) (dues gone news : List Due) → Ascends dues
        → has due (merged dues gone news) ≡ (has due news || (not (has due gone) && has due dues)) }
{}

/// The first of an ascending list is its least: none comes before it. Where there is no first, there
/// is none.
pub fn the_first_is_the_least()
    ensures some { (dues : List Due) (first due : Due) → Ascends dues
        → slice_get dues 0 ≡ Some first → has due dues ≡ true → compare_dues due first ≢ Less }
    ensures none { (dues : List Due) (due : Due) → slice_get dues 0 ≡ None → has due dues ≡ false }
{}

/// The next after a due is there, comes after it, and none that does so comes before this one. Where
/// there is no next, none comes after it.
pub fn the_next_is_the_least_after()
    ensures there { (dues : List Due) (due next : Due) → Ascends dues
        → next_after due dues ≡ Some next → has next dues ≡ true }
    ensures after { (dues : List Due) (due next : Due) → Ascends dues
        → next_after due dues ≡ Some next → compare_dues due next ≡ Less }
    ensures least { (dues : List Due) (due next other : Due) → Ascends dues
        → next_after due dues ≡ Some next → has other dues ≡ true → compare_dues due other ≡ Less
        → compare_dues other next ≢ Less }
    ensures none { (dues : List Due) (due other : Due) → next_after due dues ≡ None
        → has other dues ≡ true → compare_dues due other ≢ Less }
{}
