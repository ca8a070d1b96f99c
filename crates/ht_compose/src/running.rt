ghost use Rattle.std.specs.Prelude.{◌≡◌, ◌≤◌, ◌∷◌, [], IfOk, OnOk, OnErr};
ghost use Rattle.ht_base.specs.Moment.{last_moment};
ghost use Rattle.ht_compose.specs.Running.{Acts, Runs, item_of};
ghost use Rattle.ht_compose.specs.Work.{ClosesForGood};
ghost use Rattle.ht_models.specs.MappedInputs.{AreMapped};
ghost use Rattle.ht_models.specs.TreeSizes.{AreSized};
ghost use Rattle.ht_tree.specs.Plans.{IsSoundPlan};

use crate::activating::activate;
use crate::beginning::begin;
use crate::checking::check;
use crate::closing::{close, next, up};
use crate::item::Item;
use crate::making::make;
use ht_base::{Memory, Moment};
use ht_tree::{Plan, Tables};
use std::alloc::Global;

/// Plans an item and all that it puts, each with what it puts itself.
pub(crate) fn run(
    alloc: Global,
    tables: &Tables,
    plan: &mut Plan,
    at: Moment,
    item: Item,
) -> Result<(), Memory>
    requires plan { IsSoundPlan tables.now.tables plan.old }
    requires at { at.0 ≤ last_moment }
    requires closes { ClosesForGood (item_of item) }
    ensures runs { OnOk result (Runs tables.now.tables plan.old plan.new at (item_of item ∷ [])) }
    ensures marked { OnErr result (plan.new.marked ≡ plan.old.marked) }
{
    count_models(tables);
    for put in act(alloc, tables, plan, at, item)? {
        run(alloc, tables, plan, at, put)?;
    }
    Ok(())
}

// The models are counted, each with the tasks of its tree, by which a run has an end.
pub(crate) fn count_models(tables: &Tables)
    ensures sized { AreSized tables.now.tables.models }
    ensures mapped { AreMapped tables.now.tables.models }
{
    let _count = tables.models().count();
}

// Plans one item, and gives those that it puts.
fn act(
    alloc: Global,
    tables: &Tables,
    plan: &mut Plan,
    at: Moment,
    item: Item,
) -> Result<Vec<Item>, Memory>
    requires plan { IsSoundPlan tables.now.tables plan.old }
    requires at { at.0 ≤ last_moment }
    requires closes { ClosesForGood (item_of item) }
    ensures acts { IfOk result
        (λ puts. Acts tables.now.tables plan.old plan.new at (item_of item) puts.items) }
    ensures marked { OnErr result (plan.new.marked ≡ plan.old.marked) }
{
    match item {
        Item::Activate(task) => activate(alloc, tables, plan, task),
        Item::Begin(task) => begin(alloc, tables, plan, task),
        Item::Make(task, entry) => make(alloc, tables, plan, at, task, entry),
        Item::Check(task) => check(alloc, tables, plan, task),
        Item::Close(task, end) => close(alloc, tables, plan, task, end),
        Item::Up(above, sub) => up(alloc, tables, plan, above, sub),
        Item::Next(above, sub) => next(alloc, tables, plan, above, sub),
    }
}
