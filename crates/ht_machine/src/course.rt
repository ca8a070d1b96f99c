ghost use Rattle.std.specs.Prelude.{◌≡◌, ◌+◌, ◌<◌, ◌≤◌, ◌^◌, ◌||◌, IfOk, None, OnErr, OnOk, length, true};
ghost use Rattle.ht_base.specs.Moment.{last_moment};
ghost use Rattle.ht_due.specs.declared.due.Due.{Due};
ghost use Rattle.ht_due.specs.Dues.{Ascends, has};
ghost use Rattle.ht_machine.specs.Courses.{GoesOn, IsOnCourse, IsTaken, is_of_new};
ghost use Rattle.ht_tree.specs.Plans.{IsSoundPlan, planned};
ghost use Rattle.ht_tree.specs.RowDues.{all_dues, first_due};
ghost use Rattle.ht_tree.specs.Soundness.{IsSound};

use crate::ahead::{add_all, next};
use crate::taking::take;
use ht_base::{Memory, Moment};
use ht_due::{Due, DueQueue};
use ht_tree::{Plan, Tables, dues_after, dues_behind, is_due};
use std::alloc::Global;

/// Where a turn stands on its way along what is due.
#[derive(Drop)]
pub(crate) struct Course {
    // The dues of the tasks that the plan changed before the turn, and of those that the turn made.
    news: DueQueue,
    // The last due that was passed, taken or not.
    passed: Option<Due>,
    pub(crate) taken: u32,
}

impl Course {
    /// Nothing is passed yet.
    pub(crate) fn begin(alloc: Global, tables: &Tables, plan: &Plan) -> Result<Course, Memory>
        requires plan { IsSoundPlan tables.now.tables plan.now }
        ensures course { IfOk result (λ c.
            IsOnCourse (all_dues tables.now.tables) (planned tables.now.tables plan.now)
            (c.news).dues c.passed) }
        ensures none { IfOk result (λ c. c.taken ≡ 0) }
    {
        let mut news = DueQueue::new(alloc);
        let dues = dues_after(alloc, tables, plan)?;
        in_step(tables);
        add_all(&mut news, &dues)?;
        Ok(Course {
            news,
            passed: None,
            taken: 0,
        })
    }

    /// Passes the next due, and takes it where it is due still. It tells whether nothing is due by the
    /// moment.
    pub(crate) fn goes_on(
        &mut self,
        alloc: Global,
        tables: &Tables,
        plan: &mut Plan,
        at: Moment,
    ) -> Result<bool, Memory>
        requires plan { IsSoundPlan tables.now.tables plan.old }
        requires course { IsOnCourse (all_dues tables.now.tables)
            (planned tables.now.tables plan.old) (self.old.news).dues self.old.passed }
        requires at { at.0 ≤ last_moment }
        requires room { self.old.taken + 1 < 2 ^ 32 }
        ensures course { OnOk result (IsOnCourse (all_dues tables.now.tables)
            (planned tables.now.tables plan.new) (self.new.news).dues self.new.passed) }
        ensures on { OnOk result
            (GoesOn tables.now.tables plan.old plan.new at.0 self.old.taken self.new.taken) }
        ensures over { IfOk result
            (λ over. over ≡ true → first_due (planned tables.now.tables plan.new) at.0 ≡ None) }
        ensures marked { OnErr result (plan.new.marked ≡ plan.old.marked) }
    {
        let Some(due) = next(tables.due(), &self.news, self.passed) else {
            return Ok(true);
        };
        if at < due.at {
            return Ok(true);
        }
        if !is_due(tables, plan, due) {
            self.passed = Some(due);
            return Ok(false);
        }
        self.take(alloc, tables, plan, due)?;
        self.passed = Some(due);
        Ok(false)
    }

    // Takes a due, and knows those of the tasks that this makes.
    fn take(
        &mut self,
        alloc: Global,
        tables: &Tables,
        plan: &mut Plan,
        due: Due,
    ) -> Result<(), Memory>
        requires plan { IsSoundPlan tables.now.tables plan.old }
        requires due { has due (all_dues (planned tables.now.tables plan.old)) ≡ true }
        requires at { due.at.0 ≤ last_moment }
        requires in_order { Ascends (self.old.news).dues }
        requires of_tasks { (q : Due) → has q (self.old.news).dues ≡ true
            → q.task.0 ≤ length (planned tables.now.tables plan.old).rows }
        requires room { self.old.taken + 1 < 2 ^ 32 }
        ensures taken { OnOk result (IsTaken tables.now.tables plan.old plan.new due) }
        ensures in_order { OnOk result (Ascends (self.new.news).dues) }
        ensures news { OnOk result ((q : Due)
            → has q (self.new.news).dues
            ≡ (is_of_new (planned tables.now.tables plan.old) (planned tables.now.tables plan.new) q
            || has q (self.old.news).dues)) }
        ensures count { OnOk result (self.new.taken ≡ self.old.taken + 1) }
        ensures passed { self.new.passed ≡ self.old.passed }
        ensures marked { OnErr result (plan.new.marked ≡ plan.old.marked) }
    {
        let before = plan.rows(tables);
        take(alloc, tables, plan, due)?;
        let dues = dues_behind(alloc, tables, plan, before)?;
        add_all(&mut self.news, &dues)?;
        self.taken += 1;
        Ok(())
    }
}

// What is due stands in order, and is of sound tables.
fn in_step(tables: &Tables)
    ensures { IsSound tables.now.tables }
{
    let _due = tables.due();
}
