ghost use Rattle.std.specs.Prelude.{◌≡◌, IfOk, None, Some};
ghost use Rattle.ht_base.specs.declared.event.Event.{Event};
ghost use Rattle.ht_base.specs.declared.moment.Moment.{Moment};
ghost use Rattle.ht_base.specs.declared.record.Record.{Record};
ghost use Rattle.ht_machine.specs.Deciding.{last_after, left_with};
ghost use Rattle.ht_machine.specs.History.{record_at};
ghost use Rattle.ht_machine.specs.Planning as spec;
ghost use Rattle.ht_machine.specs.Planning.{record_by, record_in};

use ht_base::{Event, Memory, Moment, Record};
use ht_tree::Tables;
use std::alloc::Global;

/// What an event leaves to be kept: nothing, that something was due by a moment, or that its command was
/// accepted at one. The record of it is only made where it is asked for.
#[derive(Clone, Copy)]
pub(crate) enum Left {
    Nothing,
    Turned(Moment),
    Commanded(Moment),
}

impl Left {
    /// What a turn leaves that took so many actions.
    pub(crate) fn by_turn(at: Moment, taken: u32) -> Left
        ensures { (make : Moment → Record) → record_by make result ≡ left_with at.0 taken None }
    {
        match taken {
            0 => Left::Nothing,
            _ => Left::Turned(at),
        }
    }

    /// The record of it, of this event.
    pub(crate) fn record(self, alloc: Global, event: &Event) -> Result<Option<Record>, Memory>
        ensures { IfOk result (λ r. r ≡ record_in event.now self) }
    {
        match self {
            Left::Nothing => Ok(None),
            Left::Turned(at) => Ok(Some(Record::Turn { at })),
            Left::Commanded(at) => Ok(Some(record_at(alloc, at, event)?)),
        }
    }

    /// Whether the record of it is just this one, where this one is of its event.
    pub(crate) fn is_of(self, kept: &Record) -> bool
        ensures { result ≡ spec.is_of self kept.now }
    {
        match kept {
            Record::Opening { .. } => false,
            Record::Turn { at } =>
                matches!(self, Left::Turned(by) | Left::Commanded(by) if by.0 == at.0),
            Record::Asked { at, .. } => matches!(self, Left::Commanded(by) if by.0 == at.0),
        }
    }
}

/// The last moment of the tables behind what an event left: that of its record, if there is one.
pub fn last_behind(left: &Option<Record>, tables: &Tables) -> Moment
    ensures { result.0 ≡ last_after tables.now.tables left.now }
{
    match left {
        Some(kept) => moment_behind(kept, tables),
        None => tables.last(),
    }
}

/// The last moment of the tables behind a record.
pub fn moment_behind(kept: &Record, tables: &Tables) -> Moment
    ensures { result.0 ≡ last_after tables.now.tables (Some kept.now) }
{
    match kept {
        Record::Turn { at } | Record::Asked { at, .. } => *at,
        Record::Opening { .. } => tables.last(),
    }
}

// As what an event is kept that acted at a moment.
fn record_at(alloc: Global, at: Moment, event: &Event) -> Result<Record, Memory>
    ensures { IfOk result (λ r. r ≡ record_at event.now at) }
{
    match event {
        Event::Ask {
            caller,
            retry,
            task,
            command,
            ..
        } => Ok(Record::Asked {
            at,
            caller: *caller,
            retry: *retry,
            task: *task,
            command: command.copy(alloc)?,
        }),
        // No command is accepted of these.
        Event::Turn { .. } | Event::Read { .. } => Ok(Record::Turn { at }),
    }
}
