use crate::label::Label;
use crate::times::{Instant, Period};
use ht_base::{Name, Txt};
use ht_toml::{
    Misfit, Named, Shape, TableShape, exactly_one, has_only, list, optional, required, table_shape,
    word,
};
use std::alloc::{AllocError, Global};
use std::marker::Model;
use toml::{Table, Value};

/// Before what a deadline's task is to be there.
#[derive(Clone, Copy, Debug, PartialEq, Eq)]
pub enum DeadlineKind {
    Start,
    Completion,
}

const DEADLINE_KINDS: [(&str, DeadlineKind); 2] = [
    ("start", DeadlineKind::Start),
    ("completion", DeadlineKind::Completion),
];

/// What follows where a deadline is missed: one of `notify` and `reassign` is given.
#[derive(Drop)]
pub struct EscalationText {
    pub name: Name,
    /// A condition, which is true where none is given.
    pub when: Option<Txt>,
    pub notify: Option<Txt>,
    pub reassign: Option<Txt>,
}

impl Named for EscalationText {
    ghost name_of = { λ e. e.name };

    fn name(&self) -> Name {
        self.name
    }
}

impl Model for EscalationText {
    ghost use Rattle.ht_entries.specs.Deadlines.{EscalationText as Text, escalation_text};

    ghost Value = { Text };

    ghost view = { λ e. escalation_text e.name e.when e.notify e.reassign };
}

impl Shape for EscalationText {
    ghost use Rattle.ht_entries.specs.Deadlines.{escalation_of};

    ghost of = { escalation_of };

    fn read(alloc: Global, value: &Value) -> Result<Option<EscalationText>, AllocError> {
        table_shape(alloc, value)
    }
}

impl TableShape for EscalationText {
    ghost use Rattle.ht_entries.specs.Deadlines.{escalation_in};

    ghost in_table = { escalation_in };

    fn read_table(alloc: Global, table: &Table) -> Result<EscalationText, Misfit> {
        if !has_only(table, &["name", "when", "notify", "reassign"]) {
            return Err(Misfit::Shape);
        }
        let name = required::<Label>(alloc, table, "name")?.0;
        let when = optional(alloc, table, "when")?;
        let notify: Option<Txt> = optional(alloc, table, "notify")?;
        let reassign: Option<Txt> = optional(alloc, table, "reassign")?;
        if !exactly_one(&[notify.is_some(), reassign.is_some()]) {
            return Err(Misfit::Shape);
        }
        Ok(EscalationText {
            name,
            when,
            notify,
            reassign,
        })
    }
}

/// A deadline, whose end is one of `period`, `at` and `part`.
#[derive(Drop)]
pub struct DeadlineText {
    pub name: Name,
    pub kind: DeadlineKind,
    /// So long after the creation of the task.
    pub period: Option<Period>,
    pub at: Option<Instant>,
    /// The input part that says when.
    pub part: Option<Label>,
    pub escalations: Vec<EscalationText>,
}

impl Named for DeadlineText {
    ghost name_of = { λ d. d.name };

    fn name(&self) -> Name {
        self.name
    }
}

impl Model for DeadlineText {
    ghost use Rattle.ht_entries.specs.Deadlines.{DeadlineText as Text, deadline_text};

    ghost Value = { Text };

    ghost view = { λ d. deadline_text d.name d.kind d.period d.at d.part d.escalations.items };
}

impl Shape for DeadlineText {
    ghost use Rattle.ht_entries.specs.Deadlines.{deadline_of};

    ghost of = { deadline_of };

    fn read(alloc: Global, value: &Value) -> Result<Option<DeadlineText>, AllocError> {
        table_shape(alloc, value)
    }
}

impl TableShape for DeadlineText {
    ghost use Rattle.ht_entries.specs.Deadlines.{deadline_in};

    ghost in_table = { deadline_in };

    fn read_table(alloc: Global, table: &Table) -> Result<DeadlineText, Misfit> {
        if !has_only(table, &["name", "kind", "for", "at", "part", "escalation"]) {
            return Err(Misfit::Shape);
        }
        let name = required::<Label>(alloc, table, "name")?.0;
        let kind = word(table, "kind", &DEADLINE_KINDS)?;
        let period: Option<Period> = optional(alloc, table, "for")?;
        let at: Option<Instant> = optional(alloc, table, "at")?;
        let part: Option<Label> = optional(alloc, table, "part")?;
        let escalations = list(alloc, table, "escalation")?;
        if !exactly_one(&[period.is_some(), at.is_some(), part.is_some()]) {
            return Err(Misfit::Shape);
        }
        Ok(DeadlineText {
            name,
            kind,
            period,
            at,
            part,
            escalations,
        })
    }
}
