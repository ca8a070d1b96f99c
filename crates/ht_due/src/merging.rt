ghost use Rattle.std.specs.Prelude.{◌≡◌, ◌+◌, ◌≤◌, fold, length};
ghost use Rattle.ht_due.specs.Dues.{AreAbsent, Ascends, put_due, without};

use crate::{Due, DueQueue};

pub(crate) fn take_all(queue: &mut DueQueue, gone: &[Due])
    ensures dues { queue.new.dues ≡ fold without queue.old.dues gone.now }
    ensures spare { queue.old.spare ≤ queue.new.spare }
{
    for due in gone {
        let _ = queue.remove(*due);
    }
}

pub(crate) fn put_all(queue: &mut DueQueue, news: &[Due])
    requires spare { length news.now ≤ queue.old.spare }
    requires news { Ascends news.now }
    requires absent { AreAbsent news.now queue.old.dues }
    ensures dues { queue.new.dues ≡ fold put_due queue.old.dues news.now }
    ensures spare { queue.old.spare ≡ queue.new.spare + length news.now }
{
    for due in news {
        queue.insert(*due);
    }
}
