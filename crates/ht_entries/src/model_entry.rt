ghost use Rattle.std.specs.Prelude.{◌≡◌, IfErr, IfOk, None, Option, Some, is_some};
ghost use Rattle.toml.specs.View.{table_view};
ghost use Rattle.ht_entries.specs.ModelEntries as spec;

use crate::choices::{Composition, Delegation, Trigger};
use crate::deadlines::DeadlineText;
use crate::finishes::FinishText;
use crate::parts::Part;
use crate::sub_entries::SubEntry;
use ht_base::{Name, Txt};
use ht_toml::{
    Misfit, Named, Shape, TableShape, has_only, list, optional, otherwise, required, table_shape,
    word_if_any, word_or,
};
use std::alloc::{AllocError, Global};
use std::marker::Model;
use toml::{Table, Value};

const KNOWN_KEYS: [&str; 18] = [
    "name",
    "priority",
    "skipable",
    "ownerRequired",
    "delegation",
    "delegatees",
    "potentialOwners",
    "excludedOwners",
    "administrators",
    "stakeholders",
    "composition",
    "instantiation",
    "completion",
    "input",
    "output",
    "sub",
    "deadline",
    "finish",
];

const DELEGATIONS: [(&str, Delegation); 4] = [
    ("anybody", Delegation::Anybody),
    ("nobody", Delegation::Nobody),
    ("potentialOwners", Delegation::PotentialOwners),
    ("other", Delegation::Other),
];

const COMPOSITIONS: [(&str, Composition); 2] = [
    ("sequential", Composition::Sequential),
    ("parallel", Composition::Parallel),
];

const TRIGGERS: [(&str, Trigger); 2] = [
    ("manual", Trigger::Manual),
    ("automatic", Trigger::Automatic),
];

/// A task model as it is written, with its assignments and conditions as texts.
#[derive(Drop)]
pub struct ModelEntry {
    pub name: Name,
    pub priority: Option<Txt>,
    pub skipable: bool,
    pub owner_required: bool,
    /// None where none is given, which means anybody.
    pub delegation: Option<Delegation>,
    pub delegatees: Option<Txt>,
    pub potential_owners: Option<Txt>,
    pub excluded_owners: Option<Txt>,
    pub administrators: Option<Txt>,
    pub stakeholders: Option<Txt>,
    pub composition: Composition,
    pub instantiation: Trigger,
    pub completion: Trigger,
    pub input: Vec<Part>,
    pub output: Vec<Part>,
    pub subs: Vec<SubEntry>,
    pub deadlines: Vec<DeadlineText>,
    pub finishes: Vec<FinishText>,
}

impl Named for ModelEntry {
    ghost name_of = { λ m. m.name };

    fn name(&self) -> Name {
        self.name
    }
}

impl Model for ModelEntry {
    ghost use Rattle.ht_entries.specs.ModelEntries.{ModelEntry as Entry, data_texts, heading, model_entry, role_texts, sub_texts};

    ghost Value = { Entry };

    ghost view = { λ m. model_entry (heading m.name m.priority m.skipable m.owner_required m.delegation m.delegatees) (role_texts m.potential_owners m.excluded_owners m.administrators m.stakeholders) (sub_texts m.composition m.instantiation m.completion m.subs.items m.finishes.items) (data_texts m.input.items m.output.items m.deadlines.items) };
}

impl Shape for ModelEntry {
    ghost use Rattle.ht_entries.specs.ModelEntries.{entry_of};

    ghost of = { entry_of };

    fn read(alloc: Global, value: &Value) -> Result<Option<ModelEntry>, AllocError> {
        table_shape(alloc, value)
    }
}

impl TableShape for ModelEntry {
    ghost use Rattle.ht_entries.specs.ModelEntries.{entry_in};

    ghost in_table = { entry_in };

    fn read_table(alloc: Global, table: &Table) -> Result<ModelEntry, Misfit> {
        if !has_only(table, &KNOWN_KEYS) {
            return Err(Misfit::Shape);
        }
        let entry = values_in(alloc, table)?;
        if has_its_delegatees(entry.delegation, &entry.delegatees) {
            Ok(entry)
        } else {
            Err(Misfit::Shape)
        }
    }
}

fn has_its_delegatees(delegation: Option<Delegation>, delegatees: &Option<Txt>) -> bool
    ensures { result ≡ spec.same (spec.is_other delegation) (is_some delegatees.now) }
{
    match delegation {
        Some(Delegation::Other) => delegatees.is_some(),
        _ => delegatees.is_none(),
    }
}

fn values_in(alloc: Global, table: &Table) -> Result<ModelEntry, Misfit>
    ensures ok { IfOk result (λ entry. spec.entry_values (table_view table.now) ≡ Some entry) }
    ensures misfit { IfErr result
        (λ e. e ≡ Misfit.Shape → spec.entry_values (table_view table.now) ≡ None) }
{
    let heading = heading_in(alloc, table)?;
    let roles = roles_in(alloc, table)?;
    let subs = subs_in(alloc, table)?;
    let data = data_in(alloc, table)?;
    Ok(ModelEntry {
        name: heading.name,
        priority: heading.priority,
        skipable: heading.skipable,
        owner_required: heading.owner_required,
        delegation: heading.delegation,
        delegatees: heading.delegatees,
        potential_owners: roles.potential_owners,
        excluded_owners: roles.excluded_owners,
        administrators: roles.administrators,
        stakeholders: roles.stakeholders,
        composition: subs.composition,
        instantiation: subs.instantiation,
        completion: subs.completion,
        input: data.input,
        output: data.output,
        subs: subs.subs,
        deadlines: data.deadlines,
        finishes: subs.finishes,
    })
}

#[derive(Drop)]
struct Heading {
    name: Name,
    priority: Option<Txt>,
    skipable: bool,
    owner_required: bool,
    delegation: Option<Delegation>,
    delegatees: Option<Txt>,
}

fn heading_in(alloc: Global, table: &Table) -> Result<Heading, Misfit>
    ensures ok { IfOk result (λ h.
        spec.heading_in (table_view table.now)
        ≡ Some (spec.heading h.name h.priority h.skipable h.owner_required h.delegation
        h.delegatees)) }
    ensures misfit { IfErr result
        (λ e. e ≡ Misfit.Shape → spec.heading_in (table_view table.now) ≡ None) }
{
    Ok(Heading {
        name: required(alloc, table, "name")?,
        priority: optional(alloc, table, "priority")?,
        skipable: otherwise(alloc, table, "skipable", false)?,
        owner_required: otherwise(alloc, table, "ownerRequired", true)?,
        delegation: word_if_any(table, "delegation", &DELEGATIONS)?,
        delegatees: optional(alloc, table, "delegatees")?,
    })
}

#[derive(Drop)]
struct RoleTexts {
    potential_owners: Option<Txt>,
    excluded_owners: Option<Txt>,
    administrators: Option<Txt>,
    stakeholders: Option<Txt>,
}

fn roles_in(alloc: Global, table: &Table) -> Result<RoleTexts, Misfit>
    ensures ok { IfOk result (λ r.
        spec.roles_in (table_view table.now)
        ≡ Some (spec.role_texts r.potential_owners r.excluded_owners r.administrators
        r.stakeholders)) }
    ensures misfit { IfErr result
        (λ e. e ≡ Misfit.Shape → spec.roles_in (table_view table.now) ≡ None) }
{
    Ok(RoleTexts {
        potential_owners: optional(alloc, table, "potentialOwners")?,
        excluded_owners: optional(alloc, table, "excludedOwners")?,
        administrators: optional(alloc, table, "administrators")?,
        stakeholders: optional(alloc, table, "stakeholders")?,
    })
}

#[derive(Drop)]
struct SubTexts {
    composition: Composition,
    instantiation: Trigger,
    completion: Trigger,
    subs: Vec<SubEntry>,
    finishes: Vec<FinishText>,
}

fn subs_in(alloc: Global, table: &Table) -> Result<SubTexts, Misfit>
    ensures ok { IfOk result (λ s.
        spec.subs_in (table_view table.now)
        ≡ Some (spec.sub_texts s.composition s.instantiation s.completion s.subs.items
        s.finishes.items)) }
    ensures misfit { IfErr result
        (λ e. e ≡ Misfit.Shape → spec.subs_in (table_view table.now) ≡ None) }
{
    Ok(SubTexts {
        composition: word_or(table, "composition", Composition::Sequential, &COMPOSITIONS)?,
        instantiation: word_or(table, "instantiation", Trigger::Manual, &TRIGGERS)?,
        completion: word_or(table, "completion", Trigger::Manual, &TRIGGERS)?,
        subs: list(alloc, table, "sub")?,
        finishes: list(alloc, table, "finish")?,
    })
}

#[derive(Drop)]
struct DataTexts {
    input: Vec<Part>,
    output: Vec<Part>,
    deadlines: Vec<DeadlineText>,
}

fn data_in(alloc: Global, table: &Table) -> Result<DataTexts, Misfit>
    ensures ok { IfOk result (λ d.
        spec.data_in (table_view table.now)
        ≡ Some (spec.data_texts d.input.items d.output.items d.deadlines.items)) }
    ensures misfit { IfErr result
        (λ e. e ≡ Misfit.Shape → spec.data_in (table_view table.now) ≡ None) }
{
    Ok(DataTexts {
        input: list(alloc, table, "input")?,
        output: list(alloc, table, "output")?,
        deadlines: list(alloc, table, "deadline")?,
    })
}
