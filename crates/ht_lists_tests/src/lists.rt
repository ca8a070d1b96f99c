use crate::office::office_of;
use ht_base::{Name, NoticePage, Page, Role, Sheet, State, TaskId, Which};
use ht_lists::{my_tasks, notices, sheet};
use ht_tree::Tables;
use std::alloc::Global;
use std::process::Abort;
use std::test::Fail;

// Tasks 1, 2, 4 and 6 are of model unit, for anna and ben, with cora as their administrator: 1 and 2
// are of one moment, 4 is anna's though ben alone may own it then, and 6 was ben's and is completed.
// Task 3 is anna's by model solo, made by ben, and comes first by its priority. Task 5 is of model
// shut, from which anna is excluded.
const OFFICE: &str = "\
1000 dan create unit
1000 dan create unit
3000 ben create solo
3000 anna setPriority 3 0
4000 dan create unit
4000 anna claim 4
4000 cora setRole 4 potentialOwners ben
5000 dan create shut
6000 dan create unit
6000 cora setRole 6 stakeholders root
6000 ben start 6
6000 ben complete 6";

// A person, a role or `any`, which tasks, how many are passed over, and how many are told at most,
// before the numbers of the tasks and how many there are.
const LISTS: &str = "\
anna any live 0 100 => 3 1 2 4 of 4
anna potentialOwner live 0 100 => 3 1 2 of 3
anna actualOwner live 0 100 => 3 4 of 2
anna initiator all 0 100 => of 0
anna any Created 0 100 => of 0
ben potentialOwner live 0 100 => 1 2 4 of 3
ben any all 0 1 => 3 of 5
ben any all 1 2 => 1 2 of 5
ben any all 4 100 => 6 of 5
ben any all 5 1 => of 5
ben actualOwner all 0 100 => of 0
ben any Completed 0 100 => 6 of 1
dan initiator all 0 100 => 1 2 4 5 6 of 5
dan any Reserved 0 100 => 4 of 1
cora administrator live 0 100 => 1 2 4 5 of 4
cora any Created 0 100 => 5 of 1
root stakeholder all 0 100 => 6 of 1
root any live 0 100 => of 0";

// A person, how many notifications are passed over, and how many are told at most, before the numbers
// of the notifications and how many there are.
const NOTICES: &str = "\
dan 0 100 => 2 4 of 2
dan 1 100 => 4 of 2
dan 2 100 => of 2
cora 0 1 => 1 of 2
anna 0 100 => of 0";

fn role_of(text: &str) -> Option<Role> {
    match text {
        "initiator" => Some(Role::Initiator),
        "stakeholder" => Some(Role::Stakeholder),
        "potentialOwner" => Some(Role::PotentialOwner),
        "actualOwner" => Some(Role::ActualOwner),
        "administrator" => Some(Role::Administrator),
        _ => None,
    }
}

fn which_of(text: &str) -> Which {
    match text {
        "live" => Which::Live,
        "all" => Which::All,
        "Created" => Which::Only(State::Created),
        "Reserved" => Which::Only(State::Reserved),
        _ => Which::Only(State::Completed),
    }
}

fn page_told(alloc: Global, page: &Page) -> Result<String, Fail> {
    let mut text = String::new(alloc);
    for row in page.rows.as_slice() {
        let number = format!(in alloc; "{} ", row.task.0)?;
        text.push_str(number.as_str())?;
    }
    Ok(format!(in alloc; "{text}of {}", page.total)?)
}

fn notices_told(alloc: Global, page: &NoticePage) -> Result<String, Fail> {
    let mut text = String::new(alloc);
    for row in page.rows.as_slice() {
        let number = format!(in alloc; "{} ", row.number)?;
        text.push_str(number.as_str())?;
    }
    Ok(format!(in alloc; "{text}of {}", page.total)?)
}

fn tasks_listed(alloc: Global, tables: &Tables, asked: &str) -> Result<String, Fail> {
    let (who, rest) = asked.split_once(" ").ok_or("a person")?;
    let (role, rest) = rest.split_once(" ").ok_or("a role")?;
    let (which, rest) = rest.split_once(" ").ok_or("which tasks")?;
    let (from, count) = rest.split_once(" ").ok_or("two numbers")?;
    let from = from.parse::<u32>()?;
    let count = count.parse::<u32>()?;
    let name = Name::of(who.as_bytes()).ok_or("a name")?;
    let person = tables.people().find(name).ok_or("a person")?;
    let page = my_tasks(
        alloc,
        tables,
        person,
        role_of(role),
        which_of(which),
        from,
        count,
    )?;
    page_told(alloc, &page)
}

fn notices_listed(alloc: Global, tables: &Tables, asked: &str) -> Result<String, Fail> {
    let (who, rest) = asked.split_once(" ").ok_or("a person")?;
    let (from, count) = rest.split_once(" ").ok_or("two numbers")?;
    let from = from.parse::<u32>()?;
    let count = count.parse::<u32>()?;
    let name = Name::of(who.as_bytes()).ok_or("a name")?;
    let person = tables.people().find(name).ok_or("a person")?;
    notices_told(alloc, &notices(alloc, tables, person, from, count)?)
}

#[test]
fn lists_of_tasks(rt: HostRuntime) -> Result<(), Fail> {
    let tables = office_of(rt.alloc(), OFFICE)?;
    for line in LISTS.lines() {
        let (asked, want) = line.split_once(" => ").ok_or("a list")?;
        let found = tasks_listed(rt.alloc(), &tables, asked)?;
        assert!(rt; found.as_str() == want, "{line}");
    }
    Ok(())
}

#[test]
fn lists_of_notifications(rt: HostRuntime) -> Result<(), Fail> {
    let tables = office_of(
        rt.alloc(),
        "1000 dan create timed\n1000 ben create timed\n11000 turn",
    )?;
    for line in NOTICES.lines() {
        let (asked, want) = line.split_once(" => ").ok_or("a list")?;
        let found = notices_listed(rt.alloc(), &tables, asked)?;
        assert!(rt; found.as_str() == want, "{line}");
    }
    Ok(())
}

fn sheet_of(alloc: Global, tables: &Tables, task: TaskId) -> Result<Sheet, Fail> {
    if tables.row(task).is_none() {
        return Err(Fail::from("no such task"));
    }
    Ok(sheet(alloc, tables, task)?)
}

fn sheet_told(alloc: Global, sheet: &Sheet) -> Result<String, Fail> {
    let initiator = sheet.initiator.as_str();
    let mut text = format!(in alloc;
        "{} {} {initiator}:",
        sheet.model.as_str(),
        sheet.state.name()
    )?;
    for name in sheet.potential_owners.as_slice() {
        text.push_str(" ")?;
        text.push_str(name.as_str())?;
    }
    Ok(text)
}

#[test]
fn a_sheet(rt: HostRuntime) -> Result<(), Fail> {
    let tables = office_of(rt.alloc(), "1000 dan create unit")?;
    let sheet = sheet_of(rt.alloc(), &tables, TaskId(1))?;
    assert_eq!(rt;
        sheet_told(rt.alloc(), &sheet)?.as_str(),
        "unit Ready dan: anna ben"
    );
    Ok(())
}
