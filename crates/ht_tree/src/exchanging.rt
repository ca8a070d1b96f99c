ghost use Rattle.std.specs.Prelude.{◌≡◌, ◌+◌, ◌≤◌, filter, fold, length, not, true};
ghost use Rattle.ht_due.specs.declared.due.Due.{Due};
ghost use Rattle.ht_due.specs.Dues.{AreNew, Ascends, has, merged, put_due, without};

use ht_due::{Due, DueQueue};

/// How many dues go and come one by one, but for those that do both. Of more of them it isn't looked which
/// do both, since each would be looked for among all. No promise rests on the number.
const FEW: usize = 8;

/// Takes dues out of a queue, which are there, and puts others in, each list ascending. It takes no
/// memory.
pub(crate) fn exchange(queue: &mut DueQueue, gone: &[Due], news: &[Due])
    requires spare { length news.now ≤ queue.old.spare }
    requires ascend { Ascends queue.old.dues }
    requires gone { Ascends gone.now }
    requires news { Ascends news.now }
    requires there { (due : Due) → has due gone.now ≡ true → has due queue.old.dues ≡ true }
    requires absent { AreNew news.now gone.now queue.old.dues }
    ensures { queue.new.dues ≡ merged queue.old.dues gone.now news.now }
{
    // Most changes of a task leave what is due of it.
    if gone == news {
        return;
    }
    if gone.len() + news.len() > FEW {
        queue.merge(gone, news);
    } else {
        take_out(queue, gone, news);
        put_in(queue, gone, news);
    }
}

// Those that come again stay.
fn take_out(queue: &mut DueQueue, gone: &[Due], news: &[Due])
    ensures dues { queue.new.dues ≡ fold without queue.old.dues
        (filter (λ due. not (has due news.now)) gone.now) }
    ensures spare { queue.old.spare ≤ queue.new.spare }
{
    for due in gone {
        if !is_among(*due, news) {
            let _ = queue.remove(*due);
        }
    }
}

// Those that stayed are there.
fn put_in(queue: &mut DueQueue, gone: &[Due], news: &[Due])
    requires spare { length news.now ≤ queue.old.spare }
    requires news { Ascends news.now }
    requires absent { AreNew news.now gone.now queue.old.dues }
    ensures { queue.new.dues ≡ fold put_due queue.old.dues
        (filter (λ due. not (has due gone.now)) news.now) }
{
    for due in news {
        if !is_among(*due, gone) {
            queue.insert(*due);
        }
    }
}

fn is_among(due: Due, dues: &[Due]) -> bool
    ensures { result ≡ has due dues.now }
{
    dues.contains(&due)
}
