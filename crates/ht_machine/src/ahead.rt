ghost use Rattle.std.specs.Prelude.{◌≡◌, ◌||◌, OnOk};
ghost use Rattle.ht_due.specs.declared.due.Due.{Due};
ghost use Rattle.ht_due.specs.Dues.{AreAbsent, Ascends, has};
ghost use Rattle.ht_machine.specs.Ahead.{IsFirstAhead, in_either, in_list};

use ht_base::Memory;
use ht_due::{Due, DueQueue, lesser};

/// The first due of both queues that comes behind the last that was passed.
pub(crate) fn next(kept: &DueQueue, news: &DueQueue, passed: Option<Due>) -> Option<Due>
    ensures { IsFirstAhead (in_either kept.now.dues news.now.dues) passed result }
{
    lesser(first_ahead(kept, passed), first_ahead(news, passed))
}

fn first_ahead(dues: &DueQueue, passed: Option<Due>) -> Option<Due>
    ensures { IsFirstAhead (in_list dues.now.dues) passed result }
{
    match passed {
        None => dues.least(),
        Some(due) => dues.after(due),
    }
}

/// Puts ascending dues into a queue.
pub(crate) fn add_all(queue: &mut DueQueue, dues: &[Due]) -> Result<(), Memory>
    requires ascend { Ascends dues.now }
    requires before { Ascends queue.old.dues }
    requires absent { AreAbsent dues.now queue.old.dues }
    ensures ascend { OnOk result (Ascends queue.new.dues) }
    ensures has { OnOk result
        ((due : Due) → has due queue.new.dues ≡ (has due dues.now || has due queue.old.dues)) }
{
    let Ok(more) = u32::try_from(dues.len()) else {
        return Err(Memory);
    };
    queue.reserve(more)?;
    queue.merge(&[], dues);
    Ok(())
}
