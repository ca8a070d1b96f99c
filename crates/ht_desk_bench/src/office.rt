ghost use Rattle.std.specs.Prelude.{IfSome};
ghost use Rattle.ht_base.specs.Events.{IsValid};
ghost use Rattle.ht_desk.specs.Stepping.{Stands};

use ht_base::{
    Answer, Bytes, Command, Event, LONGEST_OFFICE_TEXT, Moment, Name, Parts, Reply, TaskId,
};
use ht_desk::{DeskState, GREATEST_LIMIT, open};
use ht_machine::{decide, last_behind};
use ht_models::Models;
use ht_outside::{Disk, MemoryDisk, RoomDisk};
use ht_people::Directory;
use ht_tree::Tables;
use std::alloc::Global;

const MODELS: &[u8] = b"[[model]]\nname = \"unit\"\npotentialOwners = \"everybody\"\n";

const PEOPLE: &[u8] = b"\
    [[person]]\nname = \"p0\"\n\
    [[person]]\nname = \"p1\"\n\
    [[person]]\nname = \"p2\"\n\
    [[person]]\nname = \"p3\"\n\
    [[person]]\nname = \"p4\"\n\
    [[person]]\nname = \"p5\"\n\
    [[person]]\nname = \"p6\"\n\
    [[person]]\nname = \"p7\"\n\
    [[person]]\nname = \"p8\"\n\
    [[person]]\nname = \"p9\"\n\
    [[person]]\nname = \"p10\"\n\
    [[person]]\nname = \"p11\"\n\
    [[person]]\nname = \"p12\"\n\
    [[person]]\nname = \"p13\"\n\
    [[person]]\nname = \"p14\"\n\
    [[person]]\nname = \"p15\"\n";

/// The room of a disk, in bytes.
const ROOM: u64 = 67_108_864;

/// How many commands are accepted, of as many creates and claims.
pub(crate) fn accepted(alloc: Global, way: u32, creates: u32, claims: u32) -> Option<u64> {
    match way {
        1 => {
            let mut disk = RoomDisk::make(alloc, ROOM).ok()?;
            durable(alloc, &mut disk, creates, claims)
        }
        2 => {
            let mut disk = MemoryDisk::make(alloc, Bytes::new(alloc), Vec::new(alloc)).ok()?;
            durable(alloc, &mut disk, creates, claims)
        }
        _ => in_memory(alloc, creates, claims),
    }
}

fn durable<D: Disk>(alloc: Global, disk: &mut D, creates: u32, claims: u32) -> Option<u64> {
    if MODELS.len() > LONGEST_OFFICE_TEXT as usize || PEOPLE.len() > LONGEST_OFFICE_TEXT as usize {
        return None;
    }
    let Ok(mut desk) = open(alloc, MODELS, PEOPLE, disk, ROOM) else {
        return None;
    };
    step_by(alloc, &mut desk, disk, creates, claims)
}

/// Whether the journal of an office with these texts is opened, which is a file of this name.
pub(crate) fn is_opened<D: Disk>(alloc: Global, disk: &mut D, name: &str) -> bool {
    if MODELS.len() > LONGEST_OFFICE_TEXT as usize || PEOPLE.len() > LONGEST_OFFICE_TEXT as usize {
        return false;
    }
    if disk.attach(name).is_err() {
        return false;
    }
    open(alloc, MODELS, PEOPLE, disk, GREATEST_LIMIT).is_ok()
}

fn step_by<D: Disk>(
    alloc: Global,
    desk: &mut DeskState,
    disk: &mut D,
    creates: u32,
    claims: u32,
) -> Option<u64>
    requires { Stands D.Disk desk.old disk.old }
{
    let mut count: u64 = 0;
    for _ in 0..creates {
        let reply = desk.step(disk, &create(alloc)?);
        count = count.saturating_add(is_done(&reply.answer));
    }
    for place in 0..claims {
        let reply = desk.step(disk, &claim(place)?);
        count = count.saturating_add(is_done(&reply.answer));
    }
    Some(count)
}

fn in_memory(alloc: Global, creates: u32, claims: u32) -> Option<u64> {
    let models = Models::read(alloc, MODELS).ok()?;
    let people = Directory::read(alloc, PEOPLE).ok()?;
    let mut tables = Tables::new(alloc, models, people).ok()?;
    let mut count: u64 = 0;
    for _ in 0..creates {
        let reply = step_in_memory(alloc, &mut tables, &create(alloc)?)?;
        count = count.saturating_add(is_done(&reply.answer));
    }
    for place in 0..claims {
        let reply = step_in_memory(alloc, &mut tables, &claim(place)?)?;
        count = count.saturating_add(is_done(&reply.answer));
    }
    Some(count)
}

fn step_in_memory(alloc: Global, tables: &mut Tables, event: &Event) -> Option<Reply>
    requires { IsValid event.now }
{
    let decision = decide(alloc, tables, event).ok()?;
    let last = last_behind(&decision.left, tables);
    tables.commit(decision.plan, last);
    Some(decision.reply)
}

fn is_done(answer: &Answer) -> u64 {
    u64::from(matches!(answer, Answer::Done { .. }))
}

fn create(alloc: Global) -> Option<Event>
    ensures { IfSome result (λ event. IsValid event) }
{
    Some(Event::Ask {
        at: Moment(1000),
        caller: Name::of(b"p0")?,
        retry: None,
        task: TaskId(0),
        command: Command::Create {
            model: None,
            input: Parts::new(alloc),
            activate_at: None,
        },
    })
}

fn claim(place: u32) -> Option<Event>
    ensures { IfSome result (λ event. IsValid event) }
{
    Some(Event::Ask {
        at: Moment(1000),
        caller: Name::of(b"p1")?,
        retry: None,
        task: TaskId(place.checked_add(1)?),
        command: Command::Claim,
    })
}
