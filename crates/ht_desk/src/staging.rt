ghost use Rattle.std.specs.Prelude.{◌≡◌, ◌≢◌, IfOk};
ghost use Rattle.ht_base.specs.Events.{IsValid};
ghost use Rattle.ht_base.specs.Records.{record_of};
ghost use Rattle.ht_desk.specs.Staging.{IsStaged};
ghost use Rattle.ht_desk.specs.States.{is_asking};
ghost use Rattle.ht_desk.specs.Steps.{store_reply};

use crate::entry::{Entry, Staged};
use crate::{DeskState, Doubt};
use ht_base::{Event, Memory, Record};
use ht_codec::write;
use ht_machine::{Decision, decide, moment_behind, read};
use ht_tree::Tables;
use std::alloc::Global;

impl DeskState {
    // Decides an event, and takes all memory that it needs.
    pub(crate) fn stage(&mut self, event: &Event) -> Result<Staged, Memory>
        requires { IsValid event.now }
        ensures tables { self.new.tables.tables ≡ self.old.tables.tables }
        ensures same { self.new ≡ record self.old { tables = self.new.tables } }
        ensures staged { IfOk result (IsStaged self.new.tables event.now) }
        ensures not_store { IfOk result (λ staged. staged.reply.answer ≢ store_reply.answer) }
    {
        stage(self.alloc, &mut self.tables, event)
    }
}

fn stage(alloc: Global, tables: &mut Tables, event: &Event) -> Result<Staged, Memory>
    requires { IsValid event.now }
    ensures tables { tables.new.tables ≡ tables.old.tables }
    ensures staged { IfOk result (IsStaged tables.new event.now) }
    ensures not_store { IfOk result (λ staged. staged.reply.answer ≢ store_reply.answer) }
{
    // A read plans nothing, and asks for no room in the tables.
    if let Event::Read { caller, query } = event {
        let reply = read(alloc, tables, *caller, query)?;
        return Ok(Staged { reply, entry: None });
    }
    stage_change(alloc, tables, event)
}

// Apart from the reads, for each of which its locals would be cleared too.
#[inline(never)]
fn stage_change(alloc: Global, tables: &mut Tables, event: &Event) -> Result<Staged, Memory>
    requires { IsValid event.now }
    ensures tables { tables.new.tables ≡ tables.old.tables }
    ensures staged { IfOk result (IsStaged tables.new event.now) }
    ensures not_store { IfOk result (λ staged. staged.reply.answer ≢ store_reply.answer) }
{
    tables.last();
    let Decision { plan, left, reply } = decide(alloc, tables, event)?;
    let Some(record) = left else {
        return Ok(Staged { reply, entry: None });
    };
    let body = write(alloc, &record)?;
    let at = moment_behind(&record, tables);
    let asked = is_asking(&record);
    let doubt = Doubt { plan, at, asked };
    Ok(Staged {
        reply,
        entry: Some(Entry { body, doubt }),
    })
}

fn is_asking(kept: &Record) -> bool
    ensures { result ≡ is_asking (record_of kept.now) }
{
    matches!(kept, Record::Asked { .. })
}
