ghost use Rattle.std.specs.Prelude.{◌≡◌, ◌≤◌, IfOk, OnErr};
ghost use Rattle.ht_base.specs.Moment.{last_moment};
ghost use Rattle.ht_machine.specs.Turning.{Turns};
ghost use Rattle.ht_tree.specs.Plans.{IsSoundPlan};

use crate::course::Course;
use ht_base::{Memory, Moment};
use ht_escalate::first;
use ht_tree::{Plan, Tables};
use std::alloc::Global;

/// Plans all that is due by a moment in milliseconds since 1970-01-01T00:00:00Z: always the first that is
/// due then, by the order of dues, until nothing is (WS-HumanTask 1.1, 4.9 and 4.10). Each acts as at the
/// moment at which it was due. It tells how many actions were taken. After `Memory` the plan holds some of
/// them, and can go back to its mark.
pub fn turn(alloc: Global, tables: &Tables, plan: &mut Plan, at: Moment) -> Result<u32, Memory>
    requires plan { IsSoundPlan tables.now.tables plan.old }
    requires at { at.0 ≤ last_moment }
    ensures turns { IfOk result (λ taken. Turns tables.now.tables plan.old plan.new at.0 taken) }
    ensures marked { OnErr result (plan.new.marked ≡ plan.old.marked) }
{
    // Most commands find nothing due.
    match first(tables, plan, at) {
        Some(_) => take_all(alloc, tables, plan, at),
        None => Ok(0),
    }
}

// An action that is taken comes behind the one before it in the order of dues, so what is due is walked
// once.
// Apart, since its locals would be cleared also where nothing is due.
#[inline(never)]
fn take_all(alloc: Global, tables: &Tables, plan: &mut Plan, at: Moment) -> Result<u32, Memory>
    requires plan { IsSoundPlan tables.now.tables plan.old }
    requires at { at.0 ≤ last_moment }
    ensures turns { IfOk result (λ taken. Turns tables.now.tables plan.old plan.new at.0 taken) }
    ensures marked { OnErr result (plan.new.marked ≡ plan.old.marked) }
{
    let mut course = Course::begin(alloc, tables, plan)?;
    for _ in 0..u32::MAX {
        if course.goes_on(alloc, tables, plan, at)? {
            return Ok(course.taken);
        }
    }
    // No memory holds so many dues.
    Err(Memory)
}
