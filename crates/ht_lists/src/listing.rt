ghost use Rattle.std.specs.Prelude.{◌≡◌, ◌<◌, [], ◌∷◌, ◌++◌, IfOk, OnOk, length};
ghost use Rattle.std.specs.List.{filter_map};
ghost use Rattle.ht_lists.specs.Lists as spec;
ghost use Rattle.ht_lists.specs.Lists.{page_of, part_of};
ghost use Rattle.ht_lists.specs.Shown.{shown_at};
ghost use Rattle.ht_tree.specs.Soundness.{IsSoundRow};

use crate::best::Best;
use crate::keys::Key;
use crate::naming::name_or_none;
use crate::offering::offer_listed;
use ht_base::{Memory, Page, PageRow, PageRows, Person, Role, Which};
use ht_tree::{Row, Tables};
use std::alloc::Global;

/// A part of the tasks in which a person has this role, or any generic human role where none is given
/// (WS-HumanTask 1.1, 7.1.2 "getMyTasks").
///
/// `from` of them are passed over, and at most `count` are told. They are ordered by their priorities,
/// from 0 on, those of one priority by their moments of creation, and those of one moment by their
/// numbers. The tasks in which the person has a role are looked at once each. Of their keys no more are
/// held at a time than twice as many as `from` and `count` together, or 64 more than those, and no row is
/// copied.
pub fn my_tasks(
    alloc: Global,
    tables: &Tables,
    person: Person,
    role: Option<Role>,
    which: Which,
    from: u32,
    count: u32,
) -> Result<Page, Memory>
    requires { person < length tables.now.tables.people.persons }
    ensures { IfOk result
        (λ page. page ≡ page_of tables.now.tables person role which from count) }
{
    let mut best = Best::new(alloc, from, count);
    offer_listed(tables, person, role, which, &mut best)?;
    let total = best.total();
    let keys = best.into_keys();
    let rows = rows_of(alloc, tables, part(&keys, from, count))?;
    Ok(Page { rows, total })
}

// So many of these at most, from a place on.
fn part(keys: &[Key], from: u32, count: u32) -> &[Key]
    ensures { result.now ≡ part_of from count keys.now }
{
    let start = keys.len().min(from as usize);
    let rest = &keys[start..];
    &rest[..rest.len().min(count as usize)]
}

// What is told of the tasks with these keys.
fn rows_of(alloc: Global, tables: &Tables, keys: &[Key]) -> Result<PageRows, Memory>
    ensures { IfOk result (λ rows. rows ≡ filter_map (shown_at tables.now.tables) keys.now) }
{
    let mut rows = PageRows::new(alloc);
    for key in keys {
        add_row(tables, key, &mut rows)?;
    }
    Ok(rows)
}

fn add_row(tables: &Tables, key: &Key, rows: &mut PageRows) -> Result<(), Memory>
    ensures { OnOk result
        (rows.new ≡ rows.old ++ filter_map (shown_at tables.now.tables) (key.now ∷ [])) }
{
    match tables.row(key.task) {
        Some(row) => rows.push(page_row(tables, row)),
        None => Ok(()),
    }
}

fn page_row(tables: &Tables, row: &Row) -> PageRow
    requires { IsSoundRow tables.now.tables row.now }
    ensures { result ≡ spec.page_row tables.now.tables row.now }
{
    PageRow {
        created: row.created,
        model: tables.models().model(row.model).name,
        owner: name_or_none(tables.people(), row.owner),
        priority: row.priority,
        state: row.state,
        task: row.task,
    }
}
