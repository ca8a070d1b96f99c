ghost use Rattle.std.specs.Prelude.{◌≡◌, ◌==◌, false, length, if◌then◌else◌, IfOk, IfErr, IsTrue, None, Some};
ghost use Rattle.serde_json.specs.Data.{object, no_members};
ghost use Rattle.serde_json.specs.Find.{as_object};
ghost use Rattle.serde_json.specs.View.{view, members_view};
ghost use Rattle.ht_api.specs.Bodies.{HasNoValue, json_in};
ghost use Rattle.ht_api.specs.Fields as spec;
ghost use Rattle.ht_api.specs.Fields.{all_known, are_known, fields_from, fields_in, no_fields, taken, with_key};
ghost use Rattle.ht_api.specs.Refusals.{Fills};

use crate::asked::Asked;
use crate::fits::{
    device_in, moment_in, name_in, number_in, owners_in, parts_in, period_in, persons_in,
    priority_in, role_in, some_parts_in, text_in,
};
use crate::keys::{Key, keys_of, knows};
use crate::refusal::ApiRefusal;
use ht_base::{Memory, Moment, Name, Names, Parts, RoleList, Txt};
use serde_json::{Map, Value};
use std::alloc::Global;

// Puts a value that fits into its field.
macro_rules! put {
    ($field:expr, $fitting:expr) => {
        match $fitting {
            Some(value) => $field = Some(value),
            None => return Ok(false),
        }
    };
}

/// The values of a body, each in the field of its key.
#[derive(Drop)]
pub(crate) struct Fields {
    pub device: Option<u8>,
    pub number: Option<u32>,
    pub model: Option<Name>,
    pub person: Option<Name>,
    pub fault: Option<Name>,
    pub role: Option<RoleList>,
    pub owners: Option<Names>,
    pub persons: Option<Names>,
    pub priority: Option<u8>,
    pub until: Option<Moment>,
    pub period: Option<u64>,
    pub activate_at: Option<Moment>,
    pub text: Option<Txt>,
    pub sub: Option<Name>,
    pub input: Option<Parts>,
    pub output: Option<Parts>,
    pub some_output: Option<Parts>,
}

impl Fields {
    /// None of them.
    pub(crate) fn new() -> Fields
        ensures { result ≡ no_fields }
    {
        Fields {
            device: None,
            number: None,
            model: None,
            person: None,
            fault: None,
            role: None,
            owners: None,
            persons: None,
            priority: None,
            until: None,
            period: None,
            activate_at: None,
            text: None,
            sub: None,
            input: None,
            output: None,
            some_output: None,
        }
    }

    // Puts the value of a key into its field, and tells whether it fits.
    fn put(&mut self, alloc: Global, key: Key, value: &Value) -> Result<bool, Memory>
        ensures { IfOk result (λ fits.
            with_key key (view value.now) self.old ≡ (if fits then Some self.new else None)) }
    {
        match key {
            Key::Device => put!(self.device, device_in(value)),
            Key::Number => put!(self.number, number_in(value)),
            Key::Model => put!(self.model, name_in(value)),
            Key::Person => put!(self.person, name_in(value)),
            Key::Fault => put!(self.fault, name_in(value)),
            Key::Role => put!(self.role, role_in(value)),
            Key::Owners => put!(self.owners, owners_in(alloc, value)?),
            Key::Persons => put!(self.persons, persons_in(alloc, value)?),
            Key::Priority => put!(self.priority, priority_in(value)),
            Key::Until => put!(self.until, moment_in(value)),
            Key::For => put!(self.period, period_in(value)),
            Key::OneEnd => return Ok(false),
            Key::ActivateAt => put!(self.activate_at, moment_in(value)),
            Key::Text => put!(self.text, text_in(alloc, value)?),
            Key::Sub => put!(self.sub, name_in(value)),
            Key::Input => put!(self.input, parts_in(alloc, value)?),
            Key::Output => put!(self.output, parts_in(alloc, value)?),
            Key::SomeOutput => put!(self.some_output, some_parts_in(alloc, value)?),
        }
        Ok(true)
    }
}

/// Puts the values that a body gives to what is asked into fields, of which none has one.
pub(crate) fn fill(
    alloc: Global,
    asked: Asked,
    body: &[u8],
    fields: &mut Fields,
) -> Result<(), ApiRefusal>
    requires body { (length body.now == 0) ≡ false }
    requires fields { fields.old ≡ no_fields }
    ensures { Fills (fields_from asked (json_in body.now)) fields.new result }
{
    let value = value_of(alloc, body)?;
    fill_from(alloc, asked, &value, fields)
}

/// Takes the values of a body without keys, which is refused where a value is required.
pub(crate) fn take_none(asked: Asked) -> Result<(), ApiRefusal>
    ensures { Fills (fields_in asked (object no_members)) no_fields result }
{
    fill_from_none(rows_of_none(asked))
}

// The keys that are looked at in a body that has none.
fn rows_of_none(asked: Asked) -> &'static [(Key, bool)]
    ensures { result.now ≡ spec.rows_in asked (object no_members) }
{
    match asked {
        Asked::SuspendUntil => end_rows(false, false),
        _ => keys_of(asked),
    }
}

// A body without keys gives no value, and is refused where one is required.
fn fill_from_none(rows: &[(Key, bool)]) -> Result<(), ApiRefusal>
    ensures { Fills (taken rows.now (object no_members) no_fields) no_fields result }
{
    for (key, required) in rows {
        if *required {
            return Err(ApiRefusal::of_key(key.name()));
        }
    }
    Ok(())
}

fn value_of(alloc: Global, body: &[u8]) -> Result<Value, ApiRefusal>
    requires { (length body.now == 0) ≡ false }
    ensures ok { IfOk result (λ v. json_in body.now ≡ Some (view v)) }
    ensures err { IfErr result (HasNoValue body.now) }
{
    match Value::from_slice(alloc, body) {
        Ok(value) => Ok(value),
        Err(error) => {
            if error.is_memory() {
                return Err(ApiRefusal::Memory);
            }
            Err(ApiRefusal::Json)
        }
    }
}

/// Whether the body has no keys, which most operations ask for. The reader, which first clears an
/// index of 16 KiB, isn't needed for it.
pub(crate) fn is_bare(body: &[u8]) -> bool
    ensures bare { IsTrue result → json_in body.now ≡ Some (object no_members) }
    ensures empty { result ≡ false → (length body.now == 0) ≡ false }
{
    body.is_empty() || body == b"{}".as_slice()
}

fn fill_from(
    alloc: Global,
    asked: Asked,
    body: &Value,
    fields: &mut Fields,
) -> Result<(), ApiRefusal>
    requires { fields.old ≡ no_fields }
    ensures { Fills (fields_in asked (view body.now)) fields.new result }
{
    let rows = keys_of(asked);
    if !are_keys(rows, body) {
        return Err(ApiRefusal::of_key("body"));
    }
    take(alloc, &number_keys(body), body, fields)?;
    take(alloc, rows_in(asked, body), body, fields)
}

// The keys of a command's number, which stand together.
fn number_keys(body: &Value) -> [(Key, bool); 2]
    ensures { result ≡ spec.number_keys (view body.now) }
{
    let has_device = body.get(Key::Device.name()).is_some();
    let has_number = body.get(Key::Number.name()).is_some();
    [(Key::Device, has_number), (Key::Number, has_device)]
}

// The keys that are looked at. A suspension has one end; where it has two or none, the key of it can't
// be filled.
fn rows_in(asked: Asked, body: &Value) -> &'static [(Key, bool)]
    ensures { result.now ≡ spec.rows_in asked (view body.now) }
{
    match asked {
        Asked::SuspendUntil => end_rows(
            body.get(Key::Until.name()).is_some(),
            body.get(Key::For.name()).is_some(),
        ),
        _ => keys_of(asked),
    }
}

fn end_rows(has_until: bool, has_period: bool) -> &'static [(Key, bool)]
    ensures { result.now ≡ spec.end_rows has_until has_period }
{
    match (has_until, has_period) {
        (true, false) => &[(Key::Until, true)],
        (false, true) => &[(Key::For, true)],
        (true, true) | (false, false) => &[(Key::OneEnd, true)],
    }
}

fn are_keys(rows: &[(Key, bool)], body: &Value) -> bool
    ensures { result ≡ are_known rows.now (as_object (view body.now)) }
{
    match body.as_object() {
        Some(members) => knows_all(rows, members),
        None => false,
    }
}

fn knows_all(rows: &[(Key, bool)], members: &Map<String, Value>) -> bool
    ensures { result ≡ all_known rows.now (members_view members.now.entries) }
{
    for (key, _) in members {
        if !knows(rows, key.as_str()) {
            return false;
        }
    }
    true
}

// Takes the values of keys behind those that were taken before.
fn take(
    alloc: Global,
    rows: &[(Key, bool)],
    body: &Value,
    fields: &mut Fields,
) -> Result<(), ApiRefusal>
    ensures { Fills (taken rows.now (view body.now) fields.old) fields.new result }
{
    for (key, required) in rows {
        match body.get(key.name()) {
            Some(value) => {
                if !fields.put(alloc, *key, value)? {
                    return Err(ApiRefusal::of_key(key.name()));
                }
            }
            None => {
                if *required {
                    return Err(ApiRefusal::of_key(key.name()));
                }
            }
        }
    }
    Ok(())
}
