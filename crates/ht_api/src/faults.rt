ghost use Rattle.std.specs.Prelude.{◌≡◌, ◌≤◌, [], length, codes, IsOk};
ghost use Rattle.ht_base.specs.declared.reply.Refusal.TheVariants as refusal;
ghost use Rattle.ht_api.specs.Replies.{counted_fault, fault, named_fault, refusal_data};
ghost use Rattle.ht_api.specs.Writing.{Puts, tokens_of};

use crate::contents::{Content, put_short};
use ht_base::{Limit, Memory, Name, Refusal, Roles, State, StateSet, Unknown};
use json::Writer;

/// Writes the text of a refusal. It takes no memory where there is room for 1,024 bytes.
pub(crate) fn put_refusal(refusal: &Refusal, writer: &mut Writer) -> Result<(), Memory>
    ensures puts { Puts result writer.old writer.new (tokens_of (refusal_data refusal.now)) }
    ensures room { 1024 ≤ writer.old.spare → IsOk result }
{
    match refusal {
        Refusal::Head => put_fault("Head", writer),
        Refusal::Fields => put_fault("Fields", writer),
        Refusal::Coding => put_fault("Coding", writer),
        Refusal::Body => put_fault("Body", writer),
        Refusal::Route => put_fault("Route", writer),
        Refusal::Method => put_fault("Method", writer),
        Refusal::Json => put_fault("Json", writer),
        Refusal::Field(key) => put_named_fault("Field", "field", key, writer),
        Refusal::Person => put_fault("Person", writer),
        Refusal::NumberStale { last } => put_counted_fault("NumberStale", "last", *last, writer),
        Refusal::NumberReused { last } => put_counted_fault("NumberReused", "last", *last, writer),
        Refusal::Task(task) => put_counted_fault("Task", "task", task.0, writer),
        Refusal::Role { needs } => put_role_fault(needs, writer),
        Refusal::State { allowed, state } => put_state_fault(allowed, *state, writer),
        Refusal::Unknown(Unknown::Model(name)) => put_named_fault("Unknown", "model", name, writer),
        Refusal::Unknown(Unknown::Person(name)) => {
            put_named_fault("Unknown", "person", name, writer)
        }
        Refusal::PartRefused(part) => put_named_fault("PartRefused", "part", part, writer),
        Refusal::Ownerless => put_fault("Ownerless", writer),
        Refusal::ByGroup => put_fault("ByGroup", writer),
        Refusal::Excluded(person) => put_named_fault("Excluded", "person", person, writer),
        Refusal::NotDelegatee(person) => put_named_fault("NotDelegatee", "person", person, writer),
        Refusal::NoOwners => put_fault("NoOwners", writer),
        Refusal::NoOutput(part) => put_named_fault("NoOutput", "part", part, writer),
        Refusal::NotSkipable => put_fault("NotSkipable", writer),
        Refusal::UntilPast => put_fault("UntilPast", writer),
        Refusal::SubRefused(sub) => put_named_fault("SubRefused", "sub", sub, writer),
        Refusal::Limit(Limit::Tasks) => put_limit_fault("tasks", writer),
        Refusal::Limit(Limit::Comments) => put_limit_fault("comments", writer),
        Refusal::Limit(Limit::Journal) => put_limit_fault("journal", writer),
        Refusal::Store => put_fault("Store", writer),
        Refusal::Spent => put_fault("Spent", writer),
        Refusal::Memory => put_fault("Memory", writer),
    }
}

fn put_fault(name: &str, writer: &mut Writer) -> Result<(), Memory>
    requires { length name.now ≤ 16 }
    ensures puts { Puts result writer.old writer.new (tokens_of (fault name.now [])) }
    ensures room { 1024 ≤ writer.old.spare → IsOk result }
{
    put_short(&[("fault", Content::Text(name))], writer)
}

fn put_named_fault(name: &str, key: &str, what: &Name, writer: &mut Writer) -> Result<(), Memory>
    requires name { length name.now ≤ 16 }
    requires key { length key.now ≤ 16 }
    ensures puts { Puts result writer.old writer.new
        (tokens_of (named_fault name.now key.now what.now)) }
    ensures room { 1024 ≤ writer.old.spare → IsOk result }
{
    // A name is short.
    let _ = what.as_bytes();
    put_short(
        &[("fault", Content::Text(name)), (key, Content::Name(*what))],
        writer,
    )
}

fn put_limit_fault(limit: &str, writer: &mut Writer) -> Result<(), Memory>
    requires { length limit.now ≤ 16 }
    ensures puts { Puts result writer.old writer.new
        (tokens_of (named_fault (codes "Limit") (codes "limit") limit.now)) }
    ensures room { 1024 ≤ writer.old.spare → IsOk result }
{
    put_short(
        &[
            ("fault", Content::Text("Limit")),
            ("limit", Content::Text(limit)),
        ],
        writer,
    )
}

fn put_counted_fault(name: &str, key: &str, number: u32, writer: &mut Writer) -> Result<(), Memory>
    requires name { length name.now ≤ 16 }
    requires key { length key.now ≤ 16 }
    ensures puts { Puts result writer.old writer.new
        (tokens_of (counted_fault name.now key.now number)) }
    ensures room { 1024 ≤ writer.old.spare → IsOk result }
{
    put_short(
        &[
            ("fault", Content::Text(name)),
            (key, Content::Number(u64::from(number))),
        ],
        writer,
    )
}

fn put_role_fault(needs: &Roles, writer: &mut Writer) -> Result<(), Memory>
    ensures puts { Puts result writer.old writer.new
        (tokens_of (refusal_data (refusal.Role needs.now))) }
    ensures room { 1024 ≤ writer.old.spare → IsOk result }
{
    put_short(
        &[
            ("fault", Content::Text("Role")),
            ("needs", Content::Roles(*needs)),
        ],
        writer,
    )
}

fn put_state_fault(allowed: &StateSet, state: State, writer: &mut Writer) -> Result<(), Memory>
    ensures puts { Puts result writer.old writer.new
        (tokens_of (refusal_data (refusal.State allowed.now state))) }
    ensures room { 1024 ≤ writer.old.spare → IsOk result }
{
    put_short(
        &[
            ("allowed", Content::States(*allowed)),
            ("fault", Content::Text("State")),
            ("state", Content::State(state)),
        ],
        writer,
    )
}
