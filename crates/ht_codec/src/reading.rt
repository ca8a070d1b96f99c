ghost use Rattle.std.specs.Prelude.{◌≡◌, ◌⊎◌, ℕ, List, Err, Ok, IfErr, IfOk, length};
ghost use Rattle.ht_base.specs.Records.{RecordOf, record_of};
ghost use Rattle.ht_codec.specs.Reading.{Gives, Shows};
ghost use Rattle.ht_codec.specs.Records.{Answers, IsRecord, Refuses, Spells, entry, kind, next_record, read_all};
ghost use Rattle.ht_codec.specs.declared.refusal.CodecRefusal.TheVariants.{Memory};

use crate::CodecRefusal;
use crate::commands::{read_command, read_task_and_op};
use crate::fields::{read_moment, read_name, read_retry};
use crate::kinds::RecordKind;
use crate::numbers::read_byte;
use crate::reader::Reader;
use crate::texts::read_opening_text;
use ht_base::{Record, TaskId};
use std::alloc::Global;

/// The record that the bytes spell, all of the bytes; else the first fault from left to right.
pub fn read(alloc: Global, bytes: &[u8]) -> Result<Record, CodecRefusal>
    // What is read is spelled so, and may be kept.
    ensures found { IfOk result (λ r. Spells (record_of r) bytes.now) }
    ensures valid { IfOk result (λ r. IsRecord (record_of r)) }
    // What is spelled so is read, unless there is no memory.
    ensures only { (r : RecordOf) → Spells r bytes.now → Answers result (Ok r) }
    // What is told is the fault of the bytes, and the fault of the bytes is told.
    ensures refused { IfErr result (λ why. (why ≡ Memory) ⊎ Refuses bytes.now why) }
    ensures refuses { (why : CodecRefusal) → Refuses bytes.now why → Answers result (Err why) }
{
    read_whole(alloc, bytes)
}

#[tactic(auto, unfolding(crate::specs::Records::read_all))]
fn read_whole(alloc: Global, bytes: &[u8]) -> Result<Record, CodecRefusal>
    ensures { Answers result (read_all bytes.now) }
{
    let mut r = Reader {
        whole: bytes.len() as u64,
        left: bytes,
    };
    let record = read_record(&mut r, alloc)?;
    if !r.left.is_empty() {
        return Err(CodecRefusal::Trailing(r.place()));
    }
    Ok(record)
}

#[tactic(auto, unfolding(crate::specs::Records::entry))]
fn read_record(r: &mut Reader<'_>, alloc: Global) -> Result<Record, CodecRefusal>
    ensures { Shows record_of entry.read r.old r.new result }
{
    let kind = read_kind(r)?;
    read_record_of(r, alloc, kind)
}

#[tactic(auto, unfolding(crate::specs::Records::kind))]
fn read_kind(r: &mut Reader<'_>) -> Result<RecordKind, CodecRefusal>
    ensures { Gives kind.read r.old r.new result }
{
    let at = r.place();
    match read_byte(r)? {
        0 => Ok(RecordKind::Opening),
        1 => Ok(RecordKind::Turn),
        2 => Ok(RecordKind::Asked),
        _ => Err(CodecRefusal::Tag(at)),
    }
}

fn read_record_of(
    r: &mut Reader<'_>,
    alloc: Global,
    kind: RecordKind,
) -> Result<Record, CodecRefusal>
    ensures { Shows record_of (next_record kind).read r.old r.new result }
{
    match kind {
        RecordKind::Opening => {
            let models = read_opening_text(r, alloc)?;
            let people = read_opening_text(r, alloc)?;
            Ok(Record::Opening { models, people })
        }
        RecordKind::Turn => Ok(Record::Turn {
            at: read_moment(r)?,
        }),
        RecordKind::Asked => {
            let at = read_moment(r)?;
            let caller = read_name(r)?;
            let retry = read_retry(r)?;
            let (task, op) = read_task_and_op(r)?;
            let command = read_command(r, alloc, op)?;
            Ok(Record::Asked {
                at,
                caller,
                retry,
                task: TaskId(task),
                command,
            })
        }
    }
}
