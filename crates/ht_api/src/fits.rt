ghost use Rattle.std.specs.Prelude.{◌≡◌, ◌≤◌, IfOk, IfSome};
ghost use Rattle.serde_json.specs.View.{view, items_view, members_view};
ghost use Rattle.ht_api.specs.Fits as spec;
ghost use Rattle.ht_api.specs.Fits.{holds_name};

use ht_base::{
    LAST, LAST_DEVICE, LAST_NUMBER, LONGEST_TEXT, LOWEST_PRIORITY, MOST_NAMES, MOST_PARTS, Memory,
    Moment, Name, Names, Parts, RoleList, Scalar, Txt, period,
};
use serde_json::{Map, Value};
use std::alloc::Global;

pub(crate) fn name_in(value: &Value) -> Option<Name>
    ensures { result ≡ spec.name_in (view value.now) }
{
    let text = value.as_str()?;
    Name::of(text.as_bytes())
}

pub(crate) fn role_in(value: &Value) -> Option<RoleList>
    ensures { result ≡ spec.role_in (view value.now) }
{
    let text = value.as_str()?;
    match text {
        "potentialOwners" => Some(RoleList::PotentialOwners),
        "excludedOwners" => Some(RoleList::ExcludedOwners),
        "administrators" => Some(RoleList::Administrators),
        "stakeholders" => Some(RoleList::Stakeholders),
        _ => None,
    }
}

pub(crate) fn device_in(value: &Value) -> Option<u8>
    ensures { result ≡ spec.device_in (view value.now) }
{
    let device = whole_in(value, 0, u64::from(LAST_DEVICE))?;
    Some(device as u8)
}

pub(crate) fn number_in(value: &Value) -> Option<u32>
    ensures { result ≡ spec.number_in (view value.now) }
{
    let number = whole_in(value, 1, u64::from(LAST_NUMBER))?;
    Some(number as u32)
}

pub(crate) fn priority_in(value: &Value) -> Option<u8>
    ensures { result ≡ spec.priority_in (view value.now) }
{
    let priority = whole_in(value, 0, u64::from(LOWEST_PRIORITY))?;
    Some(priority as u8)
}

pub(crate) fn moment_in(value: &Value) -> Option<Moment>
    ensures { result ≡ spec.moment_in (view value.now) }
{
    let moment = whole_in(value, 0, LAST)?;
    Some(Moment(moment))
}

pub(crate) fn period_in(value: &Value) -> Option<u64>
    ensures { result ≡ spec.period_in (view value.now) }
{
    period(value.as_str()?)
}

// A whole number that is at least the one and at most the other.
fn whole_in(value: &Value, least: u64, most: u64) -> Option<u64>
    ensures value { result ≡ spec.whole_in least most (view value.now) }
    ensures within { IfSome result (λ n. n ≤ most) }
{
    let number = value.as_u64()?;
    if number < least || number > most {
        return None;
    }
    Some(number)
}

pub(crate) fn text_in(alloc: Global, value: &Value) -> Result<Option<Txt>, Memory>
    ensures { IfOk result (λ t. t ≡ spec.text_in (view value.now)) }
{
    let Some(text) = value.as_str() else {
        return Ok(None);
    };
    if text.is_empty() || text.len() > LONGEST_TEXT {
        return Ok(None);
    }
    Ok(Some(Txt::of(alloc, text)?))
}

pub(crate) fn owners_in(alloc: Global, value: &Value) -> Result<Option<Names>, Memory>
    ensures { IfOk result (λ ns. ns ≡ spec.owners_in (view value.now)) }
{
    let Some(names) = persons_in(alloc, value)? else {
        return Ok(None);
    };
    if names.as_slice().is_empty() {
        return Ok(None);
    }
    Ok(Some(names))
}

pub(crate) fn persons_in(alloc: Global, value: &Value) -> Result<Option<Names>, Memory>
    ensures { IfOk result (λ ns. ns ≡ spec.persons_in (view value.now)) }
{
    let Some(items) = value.as_array() else {
        return Ok(None);
    };
    if items.len() > MOST_NAMES {
        return Ok(None);
    }
    let Some(names) = names_of(alloc, items)? else {
        return Ok(None);
    };
    if !are_distinct(names.as_slice()) {
        return Ok(None);
    }
    Ok(Some(names))
}

#[tactic(auto, using(crate::proofs::Fitting::one_more, crate::proofs::Fitting::all_read))]
fn names_of(alloc: Global, items: &[Value]) -> Result<Option<Names>, Memory>
    ensures { IfOk result (λ ns. ns ≡ spec.names_of (items_view items.now)) }
{
    let mut names = Names::new(alloc);
    for item in items {
        let Some(name) = name_in(item) else {
            return Ok(None);
        };
        names.push(name)?;
    }
    Ok(Some(names))
}

fn are_distinct(names: &[Name]) -> bool
    ensures { result ≡ spec.are_distinct names.now }
{
    for (place, name) in names.iter().enumerate() {
        if holds(&names[place + 1..], name) {
            return false;
        }
    }
    true
}

fn holds(names: &[Name], name: &Name) -> bool
    ensures { result ≡ holds_name name.now names.now }
{
    names.iter().any(|other| *other == *name)
}

pub(crate) fn some_parts_in(alloc: Global, value: &Value) -> Result<Option<Parts>, Memory>
    ensures { IfOk result (λ ps. ps ≡ spec.some_parts_in (view value.now)) }
{
    let Some(parts) = parts_in(alloc, value)? else {
        return Ok(None);
    };
    if parts.as_slice().is_empty() {
        return Ok(None);
    }
    Ok(Some(parts))
}

pub(crate) fn parts_in(alloc: Global, value: &Value) -> Result<Option<Parts>, Memory>
    ensures { IfOk result (λ ps. ps ≡ spec.parts_in (view value.now)) }
{
    let Some(members) = value.as_object() else {
        return Ok(None);
    };
    if members.len() > MOST_PARTS {
        return Ok(None);
    }
    parts_of(alloc, members)
}

#[tactic(auto, using(crate::proofs::Fitting::one_more, crate::proofs::Fitting::all_read))]
fn parts_of(alloc: Global, members: &Map<String, Value>) -> Result<Option<Parts>, Memory>
    ensures { IfOk result (λ ps. ps ≡ spec.parts_of (members_view members.now.entries)) }
{
    let mut parts = Parts::new(alloc);
    for (key, value) in members {
        let Some(name) = Name::of(key.as_bytes()) else {
            return Ok(None);
        };
        let Some(scalar) = scalar_in(alloc, value)? else {
            return Ok(None);
        };
        parts.push(name, scalar)?;
    }
    Ok(Some(parts))
}

fn scalar_in(alloc: Global, value: &Value) -> Result<Option<Scalar>, Memory>
    ensures { IfOk result (λ s. s ≡ spec.scalar_in (view value.now)) }
{
    match value {
        Value::Bool(truth) => Ok(Some(Scalar::Truth(*truth))),
        Value::Number(_) => match value.as_i64() {
            Some(number) => Ok(Some(Scalar::Int(number))),
            None => Ok(None),
        },
        Value::String(text) => {
            if text.len() > LONGEST_TEXT {
                return Ok(None);
            }
            Ok(Some(Scalar::Text(Txt::of(alloc, text.as_str())?)))
        }
        Value::Null | Value::Array(_) | Value::Object(_) => Ok(None),
    }
}
