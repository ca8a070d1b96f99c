ghost use Rattle.std.specs.Prelude.{◌≡◌, [], ◌∷◌, IfOk};

use ht_base::{Memory, State, TaskId};
use std::alloc::Global;

/// What is to be done with composite tasks.
#[derive(Clone, Copy)]
pub(crate) enum Item {
    Activate(TaskId),
    Begin(TaskId),
    /// The sub task of an entry of a task is made.
    Make(TaskId, u32),
    Check(TaskId),
    Close(TaskId, State),
    /// A parent hears that a sub task of it has ended.
    Up(TaskId, TaskId),
    /// The entry behind that of a sub task comes next.
    Next(TaskId, TaskId),
}

/// One item.
pub(crate) fn alone(alloc: Global, item: Item) -> Result<Vec<Item>, Memory>
    ensures { IfOk result (λ items. items.items ≡ item ∷ []) }
{
    let mut items = Vec::with_capacity(alloc, 1)?;
    items.push(item)?;
    Ok(items)
}

/// One item, and then another.
pub(crate) fn both(alloc: Global, first: Item, second: Item) -> Result<Vec<Item>, Memory>
    ensures { IfOk result (λ items. items.items ≡ first ∷ second ∷ []) }
{
    let mut items = Vec::with_capacity(alloc, 2)?;
    items.push(first)?;
    items.push(second)?;
    Ok(items)
}
