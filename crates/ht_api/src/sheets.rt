ghost use Rattle.std.specs.Prelude.{◌≡◌};
ghost use Rattle.ht_api.specs.Contents.{rows_of};
ghost use Rattle.ht_api.specs.Replies as spec;
ghost use Rattle.ht_api.specs.Replies.{sheet_data};
ghost use Rattle.ht_api.specs.Writing.{Puts, tokens_of};

use crate::contents::{Content, put_object};
use ht_base::{Memory, Sheet};
use json::Writer;

/// Writes the sheet of a task.
pub(crate) fn put_sheet(sheet: &Sheet, writer: &mut Writer) -> Result<(), Memory>
    ensures { Puts result writer.old writer.new (tokens_of (sheet_data sheet.now)) }
{
    let first = first_rows(sheet);
    let middle = middle_rows(sheet);
    let last = last_rows(sheet);
    put_object(&first, &middle, &last, writer)
}

fn first_rows(sheet: &Sheet) -> [(&'static str, Content<'_>); 7]
    ensures { rows_of result ≡ spec.first_rows sheet.now }
{
    [
        ("administrators", Content::Names(&sheet.administrators)),
        ("byGroup", Content::Truth(sheet.by_group)),
        ("comments", Content::Comments(&sheet.comments)),
        ("created", Content::Number(sheet.created.0)),
        ("excludedOwners", Content::Names(&sheet.excluded_owners)),
        ("fault", Content::MaybeName(sheet.fault)),
        ("initiator", Content::Name(sheet.initiator)),
    ]
}

fn middle_rows(sheet: &Sheet) -> [(&'static str, Content<'_>); 7]
    ensures { rows_of result ≡ spec.middle_rows sheet.now }
{
    [
        ("input", Content::Parts(&sheet.input)),
        ("lastOwner", Content::MaybeName(sheet.last_owner)),
        ("model", Content::Name(sheet.model)),
        ("output", Content::Parts(&sheet.output)),
        ("owner", Content::MaybeName(sheet.owner)),
        ("parent", Content::MaybeTask(sheet.parent)),
        ("potentialOwners", Content::Names(&sheet.potential_owners)),
    ]
}

fn last_rows(sheet: &Sheet) -> [(&'static str, Content<'_>); 8]
    ensures { rows_of result ≡ spec.last_rows sheet.now }
{
    [
        ("priority", Content::Number(u64::from(sheet.priority))),
        ("stakeholders", Content::Names(&sheet.stakeholders)),
        ("started", Content::Truth(sheet.started)),
        ("state", Content::State(sheet.state)),
        ("subs", Content::Tasks(&sheet.subs)),
        ("task", Content::Number(u64::from(sheet.task.0))),
        ("until", Content::MaybeMoment(sheet.until)),
        ("waits", Content::MaybeMoment(sheet.waits)),
    ]
}
