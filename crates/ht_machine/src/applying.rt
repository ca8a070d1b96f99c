ghost use Rattle.std.specs.Prelude.{◌≡◌, ◌≢◌, IfOk, IfSome, None, Ok, Some, false, true};
ghost use Rattle.ht_base.specs.declared.reply.Reply.{Reply};
ghost use Rattle.ht_base.specs.Events.{IsValid};
ghost use Rattle.ht_machine.specs.History.{Applies, event_of};
ghost use Rattle.ht_machine.specs.Planning.{Plans, record_in};
ghost use Rattle.ht_tree.specs.Plans.{no_plan};
ghost use Rattle.ht_tree.specs.Tables.{TablesOf};

use crate::asking::CommandAt;
use crate::deciding::{effective, plan_turn, turn_then_ask};
use crate::leaving::{Left, moment_behind};
use ht_base::{Memory, Record};
use ht_tree::{Plan, Tables};
use std::alloc::Global;

/// Applies a record to the tables, where its event leaves just this record on them, and tells whether it
/// does. Else the tables are as before. It is decided anew, without a reply.
pub fn apply(alloc: Global, tables: &mut Tables, kept: &Record) -> Result<bool, Memory>
    requires { IfSome (event_of kept.now) IsValid }
    ensures applied { IfOk result (λ does. does ≡ true
        → Applies tables.old.tables kept.now tables.new.tables) }
    ensures refused { IfOk result (λ does. does ≡ false
        → (u : TablesOf) → Applies tables.old.tables kept.now u → ⊥) }
    ensures same { result ≢ Ok true → tables.new.tables ≡ tables.old.tables }
{
    let mut plan = Plan::begin(alloc)?;
    let left = plan_kept(alloc, tables, &mut plan, kept)?;
    if !left.is_of(kept) {
        return Ok(false);
    }
    tables.prepare(&plan)?;
    let at = moment_behind(kept, tables);
    tables.commit(plan, at);
    Ok(true)
}

// Plans the event that a record is of, and tells what it leaves. An Opening is of none.
fn plan_kept(alloc: Global, tables: &Tables, plan: &mut Plan, kept: &Record) -> Result<Left, Memory>
    requires valid { IfSome (event_of kept.now) IsValid }
    requires plan { plan.old ≡ no_plan }
    ensures { IfOk result (λ left. IfSome (event_of kept.now) (λ e.
        (reply : Reply)
        × Plans tables.now.tables plan.new e (record_in e left) reply)) }
{
    let last = tables.last();
    match kept {
        Record::Opening { .. } => Ok(Left::Nothing),
        Record::Turn { at } => Ok(plan_turn(alloc, tables, plan, *at)?.0),
        Record::Asked {
            at,
            caller,
            retry,
            task,
            command,
        } => {
            let asked = CommandAt {
                at: effective(last, *at),
                caller: *caller,
                retry: *retry,
                task: *task,
                command,
            };
            Ok(turn_then_ask(alloc, tables, plan, &asked)?.0)
        }
    }
}
