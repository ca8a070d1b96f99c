ghost use Rattle.std.specs.Prelude.{◌≡◌, ◌<◌, IfOk, length};
ghost use Rattle.ht_people.specs.Directory.{find};
ghost use Rattle.ht_machine.specs.Deciding as spec;
ghost use Rattle.ht_machine.specs.Gate as gates;
ghost use Rattle.ht_tree.specs.Tables.{directory};

use crate::gating::refusal_at_gate;
use ht_base::{Answer, BoxedSheet, Memory, Name, Op, Person, Query, Refusal, Reply, TaskId};
use ht_lists::{my_tasks, notices, sheet};
use ht_tree::{Plan, Tables};
use std::alloc::Global;

/// Answers what a caller, who must be a person, asks of the tables as they stand: as
/// [`decide`](crate::decide) does, which plans and leaves nothing then.
// Apart from the commands, for each of which its locals would be cleared too.
#[inline(never)]
pub fn read(alloc: Global, tables: &Tables, caller: Name, query: &Query) -> Result<Reply, Memory>
    ensures { IfOk result (λ reply.
        reply ≡ spec.reply_of (spec.shown_to tables.now.tables query.now
        (find caller (directory tables.now.tables)))) }
{
    let answer = shown(alloc, tables, caller, query)?;
    Ok(Reply { taken: 0, answer })
}

fn shown(alloc: Global, tables: &Tables, caller: Name, query: &Query) -> Result<Answer, Memory>
    ensures { IfOk result (λ answer.
        answer ≡ spec.shown_to tables.now.tables query.now
        (find caller (directory tables.now.tables))) }
{
    let Some(person) = tables.people().find(caller) else {
        return Ok(Answer::Refused(Refusal::Person));
    };
    match query {
        Query::Sheet(task) => show(alloc, tables, person, *task),
        Query::Tasks {
            role,
            which,
            from,
            count,
        } => {
            let page = my_tasks(alloc, tables, person, *role, *which, *from, *count)?;
            Ok(Answer::Page(page))
        }
        Query::Notices { from, count } => {
            let page = notices(alloc, tables, person, *from, *count)?;
            Ok(Answer::Notices(page))
        }
    }
}

// The sheet of a task, where the person may see it.
fn show(alloc: Global, tables: &Tables, person: Person, task: TaskId) -> Result<Answer, Memory>
    requires { person < length tables.now.tables.people.persons }
    ensures { IfOk result (λ answer.
        answer ≡ spec.sheet_behind tables.now.tables
        (gates.gate tables.now.tables Op.Get person task.0)) }
{
    let nothing = Plan::begin(alloc)?;
    if let Some(refusal) = refusal_at_gate(tables, &nothing, person, task, Op::Get) {
        return Ok(Answer::Refused(refusal));
    }
    let sheet = sheet(alloc, tables, task)?;
    Ok(Answer::Sheet(BoxedSheet::new(alloc, sheet)?))
}
